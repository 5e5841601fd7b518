//! Files with checksums that a put replaces as a whole, as the files below.

use crate::files::SumFiles;
use durable::AtomicPut;

impl<F: AtomicPut> AtomicPut for SumFiles<F> {
    ghost whole = { F.whole };
}
