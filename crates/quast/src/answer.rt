use crate::quast::Quast;

/// An answer: `void` where no parameter vector satisfies the context, else a tree.
#[derive(Drop)]
pub enum Answer {
    Void,
    Tree(Quast),
}
