use terms::{Outcome, Refusal};

/// What an accepted line came to.
#[derive(Clone, Copy, Debug, PartialEq, Eq)]
pub enum Done {
    /// Line 1, open, close or begin was accepted.
    Accepted,
    /// A step came to this.
    Stepped(Outcome),
    /// A sweep made so many slots spare.
    Swept(u16),
}

/// What a line of a script is answered with.
pub type Reply = Result<Done, Refusal>;
