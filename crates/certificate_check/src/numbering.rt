ghost use Rattle.std.specs.Prelude.{◌≡◌, ◌+◌, pos};
ghost use Rattle.pip_model.specs.Share as model;
ghost use Rattle.affine_forms.specs.Checks.{Fits};
ghost use Rattle.certificate_check.specs.Sharing.{index_of};

// How the known forms of a refutation are numbered: first those of its leaf, then those of its own, then its steps'.
#[derive(Clone, Copy)]
pub(crate) struct Numbering {
    pub(crate) leaf: usize,
    pub(crate) own: usize,
}

// How the indices of steps change: the refutation's own forms are left out; or so many of its first steps stand before
// its own forms.
#[derive(Clone, Copy)]
pub(crate) enum Renumbering {
    Lowered(Numbering),
    Moved(Numbering, usize),
}

impl Numbering {
    // The index of the first step's form.
    fn first_step(self) -> i128
        ensures { result ≡ pos (self.leaf + self.own) }
    {
        self.leaf as i128 + self.own as i128
    }

    // Whether the index names a form of the refutation's own.
    pub(crate) fn is_own(self, index: i128) -> bool
        ensures { result ≡ model.is_own self.leaf self.own index }
    {
        self.leaf as i128 <= index && index < self.first_step()
    }

    // Whether the index names one of the first n steps.
    fn is_step(self, n: usize, index: i128) -> bool
        ensures { result ≡ model.is_own (self.leaf + self.own) n index }
    {
        self.first_step() <= index && index < self.first_step() + n as i128
    }

    // The index where the own forms are left out.
    #[tactic(auto, using(crate::proofs::Indices::fits_down))]
    pub(crate) fn lower_index(self, index: i128) -> i128
        requires { Fits index }
        ensures value { result ≡ model.lowered self.leaf self.own index }
        ensures fits { Fits result }
    {
        if self.first_step() <= index {
            index - self.own as i128
        } else {
            index
        }
    }

    // The index where the first n steps stand before the own forms.
    #[tactic(auto, using(crate::proofs::Indices::fits_down, crate::proofs::Indices::fits_up))]
    fn move_index(self, n: usize, index: i128) -> i128
        requires { Fits index }
        ensures value { result ≡ model.moved_index self.leaf self.own n index }
        ensures fits { Fits result }
    {
        if self.is_own(index) {
            index + n as i128
        } else if self.is_step(n, index) {
            index - self.own as i128
        } else {
            index
        }
    }
}

impl Renumbering {
    // The index that a form has then.
    pub(crate) fn index(self, index: i128) -> i128
        requires { Fits index }
        ensures value { result ≡ index_of self index }
        ensures fits { Fits result }
    {
        match self {
            Renumbering::Lowered(numbering) => numbering.lower_index(index),
            Renumbering::Moved(numbering, n) => numbering.move_index(n, index),
        }
    }
}
