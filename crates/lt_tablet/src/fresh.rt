ghost use Rattle.std.specs.Prelude.{◌≡◌, true};
ghost use Rattle.std.specs.Arc.{arc_value};
ghost use Rattle.lt_layout.specs.Spelling.{totals_of, listed_totals};
ghost use Rattle.lt_tablet.specs.Loaded.{Loaded, IsTold, records_in};
ghost use Rattle.lt_tablet.specs.Writing.{IsListing};

use crate::tablet::Tablet;
use lt_io::Device;
use lt_rec::Listed;
use std::marker::Model;
use std::sync::Arc;

/// A tablet that was written just now, with its listing.
#[derive(Drop)]
pub struct Fresh<V: Device> {
    tablet: Arc<Tablet<V>>,
    listed: Listed,
}

impl<V: Device> Model for Fresh<V> {
    ghost use Rattle.std.specs.Prelude.{◌≡◌};
    ghost use Rattle.std.specs.Arc.{arc_value};
    ghost use Rattle.std.specs.Prelude.{true};
    ghost use Rattle.lt_tablet.specs.Loaded.{Loaded, IsTold};
    ghost use Rattle.lt_tablet.specs.Writing.{IsListing};

    ghost Value = { Loaded };

    ghost view = { λ f. arc_value f.tablet };

    ghost invariant = { λ f. (f.listed ≡ (arc_value f.tablet).listed) × IsListing f.listed f.listed.file f.listed.period × (V.honest ≡ true → IsTold (arc_value f.tablet)) };
}

impl<V: Device> Fresh<V> {
    pub(crate) fn new(tablet: Arc<Tablet<V>>, listed: Listed) -> Fresh<V>
        requires same { listed ≡ (arc_value tablet).listed }
        requires listing { IsListing listed listed.file listed.period }
        requires honest { V.honest ≡ true → IsTold (arc_value tablet) }
        ensures { result ≡ arc_value tablet }
    {
        Fresh { tablet, listed }
    }

    pub fn tablet(&self) -> &Arc<Tablet<V>>
        ensures { arc_value result.now ≡ self.now }
    {
        &self.tablet
    }

    pub fn listed(&self) -> &Listed
        ensures same { result.now ≡ self.now.listed }
        ensures listing { IsListing result.now self.now.listed.file self.now.listed.period }
        ensures honest { V.honest ≡ true → listed_totals result.now ≡ totals_of (records_in self.now) }
    {
        &self.listed
    }

    /// The tablet, and its listing.
    pub fn into_parts(self) -> (Arc<Tablet<V>>, Listed)
        ensures tablet { arc_value result.0 ≡ self }
        ensures listed { result.1 ≡ self.listed }
    {
        let Fresh { tablet, listed } = self;
        (tablet, listed)
    }
}
