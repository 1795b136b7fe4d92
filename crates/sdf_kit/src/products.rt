//! Counted products.

ghost use Rattle.std.specs.Prelude.{◌≡◌, ◌+◌, ◌<◌, ◌≤◌, ◌*ℤ◌, unsigned_abs, FitsSigned};
ghost use Rattle.std.specs.Int.{w16};

use crate::arithmetic::product;
use std::marker::Model;
use std::sync::ledger::{Blank, Book, Ledger, Share};

/// The number of products made so far. It takes no bytes, and only a product changes it.
#[derive(Drop)]
pub struct Products<G: Ledger> {
    book: Book<G>,
    share: Share<G>,
}

impl<G: Ledger> Model for Products<G> {
    ghost use Rattle.std.specs.Prelude.{ℕ, ◌<◌};

    ghost Value = { ℕ };

    ghost view = { λ p. p.book.total };

    ghost invariant = { λ p. 0 < p.share.parts };
}

impl<G: Ledger> Products<G> {
    /// Opens a ledger from `blank`, with no products yet.
    pub fn open(blank: Blank) -> Products<G>
        requires name { blank.name ≡ G.name }
        requires parts { blank.parts ≡ G.parts }
        requires some { 0 < blank.parts }
        ensures { result ≡ 0 }
    {
        let (book, share) = blank.open::<G>();
        Products { book, share }
    }

    /// Multiplies a sample by a 16-bit `factor`, and counts one product.
    pub(crate) fn multiply(&mut self, factor: i32, sample: i32) -> i64
        requires { FitsSigned w16 factor }
        ensures value { result ≡ factor *ℤ sample }
        ensures small { unsigned_abs result ≤ 70368744177664 }
        ensures counted { self.new ≡ self.old + 1 }
    {
        self.book.add(&mut self.share, 1);
        product(factor, sample)
    }
}
