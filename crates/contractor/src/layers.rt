// The laws of layers, over any domain: a call that does nothing, and whose contract says them.
ghost use Rattle.contractor.specs.Theorems.{LayersSound, FixedSettles, RearrangedAlike, ShuffledPaired, LayerFacts};

use domain::domain::Domain;

// A layer over contractors is a contractor; Fixed gives what its rule names; rearranged contractors have the same
// maps; and the same members in another order pair off, so that Relaxed over them is rearranged.
pub fn layer_laws<P: Domain>(_piece: &P)
    ensures sound { LayersSound P.Domain.maps }
    ensures settles { FixedSettles P.Domain.maps }
    ensures alike { RearrangedAlike P.Domain.maps }
    ensures paired { ShuffledPaired P.Domain.maps }
    ensures facts { LayerFacts P.Domain.maps }
{}
