// What every matrix source offers and owes.
ghost use Rattle.std.specs.Prelude.{◌≡◌, Option};
ghost use Rattle.matrix.specs.Matrices.{Matrices, Sound, Row};
ghost use Rattle.matrix.specs.Replies.{Turn, column_reply};

use crate::fault::SourceFault;

pub trait MatrixSource {
    ghost meaning: { Self → Matrices };

    // The row that it is turned to, if any.
    ghost turned: { Self → Option Row };

    // n: the matrices have n rows and n columns.
    fn side(&self) -> usize
        ensures { result ≡ (meaning self.now).side };

    // q: entries are below q.
    fn modulus(&self) -> u32
        ensures { result ≡ (meaning self.now).modulus };

    // Turns to a row of the matrix of a seed. An unknown seed is refused first, then a row out of range.
    fn turn(&mut self, seed: &[u8; 32], row: usize) -> Result<(), SourceFault>
        ensures { Turn meaning turned seed.now row self.old self.new result };

    // The entry in a column of the row that it is turned to.
    fn column(&self, j: usize) -> Result<u16, SourceFault>
        ensures { result ≡ column_reply (meaning self.now) (turned self.now) j };

    // What every source keeps.
    ghost sound: { (s : Self) → Sound (meaning s) };
}
