/// What is done to an item of a list where it stands.
pub trait Change<T> {
    /// What is told of it.
    type Answer;

    /// To which items it may be done.
    ghost may: { Self → T → Type 0 };

    /// What the item was before, what it is then, and what is told.
    ghost does: { Self → T → T → Self.Answer → Type 0 };

    /// Does it. A list does it where the item stands, and gives the answer on.
    fn apply(self, item: &mut T) -> Self::Answer
        requires { may self item.old }
        ensures { does self item.old item.new result };
}
