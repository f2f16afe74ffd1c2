// What the governor does.
mod govern;
mod orders;
mod roots;
mod rules;
