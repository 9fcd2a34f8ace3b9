//! What each kind of rows keeps.

ghost use Rattle.std.specs.Prelude.{◌≡◌, ℕ, length};
ghost use Rattle.mf_rows.specs.RowKinds.{Kind, HasLaws, IsOf, bytes_of};

/// A row that is spelled in a fixed number of bytes, of which the first are its key.
pub trait RowKind: Copy {
    /// How rows are spelled.
    ghost kind: { Kind Self };

    ghost WIDTH: { ℕ };

    /// The bytes of a row.
    const WIDTH: usize;

    ghost KEY: { ℕ };

    /// The bytes of its key.
    const KEY: usize;

    /// A value of the type is a row.
    fn known(self)
        ensures { IsOf kind self };

    /// Puts the bytes of the row.
    fn put(&self, out: &mut [u8])
        requires { length out.old ≡ kind.width }
        ensures { out.new ≡ bytes_of kind self.now };

    /// The row with these bytes.
    fn get(bytes: &[u8]) -> Self
        requires { length bytes.now ≡ kind.width }
        ensures { result ≡ kind.row_of bytes.now };

    ghost width: { WIDTH ≡ kind.width };

    ghost key: { KEY ≡ kind.key };

    /// What is put is read back, every list of so many bytes is a row, and the order of keys is that of their bytes.
    ghost laws: { HasLaws kind };
}
