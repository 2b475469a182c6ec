// The opposite of a test: it is passed where the test is not.
ghost use Rattle.std.specs.Prelude.{not};

use scan::live::Live;

#[derive(Clone, Copy)]
pub(crate) struct Opposite<L>(pub(crate) L);

impl<L: Live> Live for Opposite<L> {
    ghost live = { λ t i. not (L.Live.live t.0 i) };

    fn is_live(&self, index: u32) -> bool {
        !self.0.is_live(index)
    }
}
