//! A file of the system, that is opened by its name. As a device it tells no bytes: what it did to those of the file is
//! said as far as std says it.

ghost use Rattle.std.specs.Prelude.{◌≡◌, ◌<◌, ◌≤◌, false, true, length, IfOk, OnErr, OnOk, Ok};
ghost use Rattle.std.specs.Io.KnownBytes.{ReadConsumes};
ghost use Rattle.mf_edge.specs.Adapters.{FileState, told_of};
ghost use Rattle.mf_edge.specs.Device.{CountsOne};
ghost use Rattle.mf_edge.specs.Shelves.{CanOpen, IsNamed, KeepsName};

use crate::{Failed, Shelf};
use arrayvec::ArrayString;
use std::fs::{File, Files};
use std::io::Read;
use std::marker::Model;

/// A shelf over the files of the system. Each error of an opening or a read is a fault, also of a read that was
/// interrupted.
#[derive(Drop)]
pub struct FileShelf<R: Files> {
    files: R,
    name: Option<ArrayString<4095>>,
    file: Option<R::File>,
    faults: u64,
}

impl<R: Files> Model for FileShelf<R> {
    ghost use Rattle.std.specs.Prelude.{is_some, option_map, option_and_then};
    ghost use Rattle.mf_edge.specs.Adapters.{FileState};

    ghost Value = { FileState };

    ghost view = { λ s. record {
      name = option_map (λ t. t.bytes) s.name;
      is_open = is_some s.file;
      remaining = option_and_then (λ f. R.File.Read.remaining f) s.file;
      faults = s.faults;
    } };
}

impl<R: Files> FileShelf<R> {
    /// A shelf that has no name yet.
    pub fn new(files: R) -> FileShelf<R>
        ensures { result ≡ record { name = None; is_open = false; remaining = None; faults = 0 } }
    {
        FileShelf {
            files,
            name: None,
            file: None,
            faults: 0,
        }
    }
}

impl<R: Files> Shelf for FileShelf<R> {
    ghost state = { told_of };

    fn open_name(&mut self, name: &str) -> Result<(), Failed>
        requires { CanOpen (told_of self.old) name.now }
        ensures named { IsNamed (told_of self.old) name.now (told_of self.new) }
        ensures opened { OnOk result (self.new.is_open ≡ true) }

        ensures failed { OnErr result (CountsOne self.old.faults self.new.faults) }
        ensures closed { OnErr result (self.new.is_open ≡ false) }
        ensures same_faults { OnOk result (self.new.faults ≡ self.old.faults) }
        ensures counts { self.old.faults ≤ self.new.faults }
    {
        self.name = ArrayString::from(name).ok();
        self.file = File::open(&self.files, name).ok();
        if self.file.is_none() {
            self.faults = self.faults.saturating_add(1);
            return Err(Failed);
        }
        Ok(())
    }

    fn read(&mut self, out: &mut [u8]) -> Result<usize, Failed>
        requires { self.old.is_open ≡ true }
        ensures within { IfOk result (λ n. n ≤ length out.new) }
        ensures consumes { ReadConsumes self.old.remaining self.new.remaining result out.new }

        ensures failed { OnErr result (CountsOne self.old.faults self.new.faults) }
        ensures same_faults { OnOk result (self.new.faults ≡ self.old.faults) }
        ensures counts { self.old.faults ≤ self.new.faults }

        ensures keeps { KeepsName (told_of self.old) (told_of self.new) }
    {
        match self.file.as_mut().unwrap().read(out) {
            Ok(n) => Ok(n),
            Err(_) => {
                self.faults = self.faults.saturating_add(1);
                Err(Failed)
            }
        }
    }
}

#[cfg(test)]
mod tests {
    use super::*;
    use std::fs;
    use std::test::Fail;

    const NAME: &str = "a_file_of_the_shelf";

    #[test]
    fn a_file(rt: HostRuntime) -> Result<(), Fail> {
        fs::write(&rt, NAME, b"abc")?;
        let mut shelf = FileShelf::new(&rt);
        assert_eq!(rt; shelf.open_name(NAME), Ok(()));
        let mut out = [b'.'; 4];
        assert_eq!(rt; shelf.read(&mut out), Ok(3));
        assert_eq!(rt; out, *b"abc.");
        assert_eq!(rt; shelf.read(&mut out), Ok(0));
        fs::remove_file(&rt, NAME)?;
        assert_eq!(rt; shelf.open_name(NAME), Err(Failed));
        Ok(())
    }
}
