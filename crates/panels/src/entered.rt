// Readings that were entered, by their places. A panel over them knows no more of where they lie.
ghost use Rattle.std.specs.Prelude.{◌≡◌, List, length};
ghost use Rattle.std.specs.List.{slice_get};

pub trait Entered {
    type Reading: Copy;

    ghost readings: { Self → List Self.Reading };

    // How many there are.
    fn count(&self) -> usize
        ensures { result ≡ length (readings self.now) };

    // The reading at a place, from 0 on, if there is one.
    fn reading(&self, place: usize) -> Option<Self::Reading>
        ensures { result ≡ slice_get (readings self.now) place };
}
