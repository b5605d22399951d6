ghost use Rattle.std.specs.Prelude.{◌≡◌, None};
ghost use Rattle.shape_rules.specs.Findings.{earlier};

use crate::error::ShapeError;

/// The first, by place and then by number, of the failures that were noted.
pub struct First {
    pub error: Option<ShapeError>,
}

impl Drop for First {
    fn drop(self) {
        let First { error: _ } = self;
    }
}

impl First {
    /// No failure was noted.
    pub fn none() -> First
        ensures { result.error ≡ None }
    {
        First { error: None }
    }

    /// Notes a failure: it is kept where it stands before the one that was kept.
    pub fn note(&mut self, error: ShapeError)
        ensures noted { self.new.error ≡ earlier self.old.error error }
    {
        let is_first = match &self.error {
            None => true,
            Some(kept) => error.is_before(kept),
        };
        if is_first {
            self.error = Some(error);
        }
    }
}
