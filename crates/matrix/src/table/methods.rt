// How the table source is built, and what it answers.
ghost use Rattle.std.specs.Prelude.{◌≡◌, IfOk, None};
ghost use Rattle.matrix.specs.Replies.{means};
ghost use Rattle.matrix.specs.Tables.{table_built, table_of, table_row, table_sound};

use crate::fault::SourceFault;
use crate::source::MatrixSource;
use crate::table::TableSource;

impl<'a> TableSource<'a> {
    // The source with n rows of n numbers, which are taken modulo q.
    pub fn new(
        n: usize,
        q: u32,
        seed: [u8; 32],
        numbers: &'a [u16],
    ) -> Result<TableSource<'a>, SourceFault>
        ensures answer { means table_of result ≡ table_built n q seed numbers.now }
        ensures unturned { IfOk result (λ source. table_row source ≡ None) }
    {
        let q = u16::try_from(q).map_err(|_| SourceFault::Shape)?;
        if n < 1 || n > 1024 || q < 2 || q > 32768 || numbers.len() != n * n {
            return Err(SourceFault::Shape);
        }
        Ok(TableSource {
            n,
            q,
            seed,
            numbers,
            row: None,
        })
    }
}

impl<'a> MatrixSource for TableSource<'a> {
    ghost meaning = { table_of };

    ghost turned = { table_row };

    fn side(&self) -> usize {
        self.n
    }

    fn modulus(&self) -> u32 {
        u32::from(self.q)
    }

    fn turn(&mut self, seed: &[u8; 32], row: usize) -> Result<(), SourceFault> {
        if self.seed != *seed {
            return Err(SourceFault::UnknownSeed);
        }
        if row >= self.n {
            return Err(SourceFault::Row);
        }
        self.row = Some(row);
        Ok(())
    }

    fn column(&self, j: usize) -> Result<u16, SourceFault> {
        let row = self.row.ok_or(SourceFault::NotTurned)?;
        if j >= self.n {
            return Err(SourceFault::Column);
        }
        Ok(self.numbers[row * self.n + j] % self.q)
    }

    ghost sound = { table_sound };
}
