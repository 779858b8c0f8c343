// How the expanding source is built, and what it answers.
ghost use Rattle.std.specs.Prelude.{◌≡◌, IfOk, None};
ghost use Rattle.matrix.specs.Expanding.{expanding_of, expanding_row, expanding_sound};
ghost use Rattle.matrix.specs.Expansion.{expansion_built};
ghost use Rattle.matrix.specs.Replies.{means};

use crate::expanding::{ExpandedRow, ExpandingSource};
use crate::expansion::Shape;
use crate::fault::SourceFault;
use crate::source::MatrixSource;

impl ExpandingSource {
    // The source with n rows of n entries below q, a power of two.
    pub fn new(n: usize, q: u32) -> Result<ExpandingSource, SourceFault>
        ensures answer { means expanding_of result ≡ expansion_built n q }
        ensures unturned { IfOk result (λ source. expanding_row source ≡ None) }
    {
        let shape = Shape::new(n, q)?;
        Ok(ExpandingSource { shape, row: None })
    }
}

impl MatrixSource for ExpandingSource {
    ghost meaning = { expanding_of };

    ghost turned = { expanding_row };

    fn side(&self) -> usize {
        self.shape.n
    }

    fn modulus(&self) -> u32 {
        1 << self.shape.bits
    }

    fn turn(&mut self, seed: &[u8; 32], row: usize) -> Result<(), SourceFault> {
        if row >= self.shape.n {
            return Err(SourceFault::Row);
        }
        // `u16::try_from` would want an answer for rows that do not get here.
        let number = row as u16;
        let entries = self.shape.expand(seed, number);
        self.row = Some(ExpandedRow {
            seed: *seed,
            number,
            entries,
        });
        Ok(())
    }

    fn column(&self, j: usize) -> Result<u16, SourceFault> {
        let row = self.row.as_ref().ok_or(SourceFault::NotTurned)?;
        if j >= self.shape.n {
            return Err(SourceFault::Column);
        }
        Ok(row.entries[j])
    }

    ghost sound = { expanding_sound };
}
