// The numbers that matrices hold in memory.
ghost use Rattle.std.specs.Prelude.{◌≡◌, ◌*◌, ◌^◌, ◌≤◌, ℤ, pos, ◌*ℤ◌, unsigned_abs};

// A number of 16 bits: signed, as secrets and noise are, or from 0 up, as what is sent.
pub(crate) trait Entry: Copy {
    ghost value_of: { Self → ℤ };

    fn wide(self) -> i64
        ensures value { result ≡ value_of self }
        ensures bound { unsigned_abs result ≤ 2 ^ 16 };

    final fn times<T: Entry>(self, other: T) -> i64
        ensures value { result ≡ value_of self *ℤ T.value_of other }
        ensures bound { unsigned_abs result ≤ 2 ^ 32 }
    {
        self.wide() * other.wide()
    }
}

impl Entry for u16 {
    ghost value_of = { pos };

    fn wide(self) -> i64 {
        i64::from(self)
    }
}

impl Entry for i16 {
    ghost value_of = { λ x. x };

    fn wide(self) -> i64 {
        i64::from(self)
    }
}
