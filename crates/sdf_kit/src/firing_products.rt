//! The products of a firing.

ghost use Rattle.std.specs.Prelude.{◌≡◌, ◌<◌, ◌^◌};
ghost use Rattle.sdf_kit.specs.FiringProducts.{products_of};

use crate::kit::Kit;

impl Kit {
    /// Returns the number of products that a firing makes, which are counted for filters only.
    pub fn products(&self) -> u64
        ensures is { result ≡ products_of self.now }
        ensures few { result < 2 ^ 50 }
    {
        match self {
            Kit::Fir(filter) => {
                let puts = filter.ports().outputs.moved(0, 0);
                u64::from(puts) * (filter.kept_len() as u64 + 1)
            }
            _ => 0,
        }
    }
}
