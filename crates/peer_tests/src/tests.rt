mod book;
mod clock;
mod groups;
mod picks;
mod rules;
mod shares;
mod steps;
