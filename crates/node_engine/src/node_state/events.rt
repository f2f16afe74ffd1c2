// What happens to a node, event by event.
mod accept;
mod answers;
mod clock;
mod close;
mod dialed;
mod greeting;
mod provided;
mod roots;
mod stream;
mod talking;
