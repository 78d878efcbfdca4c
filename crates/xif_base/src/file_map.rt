//! Files in memory, by name.
ghost use Rattle.std.specs.Prelude.{◌≡◌, OnOk, OnErr, IsSome};
ghost use Rattle.xif_base.specs.Files.{appended};
ghost use Rattle.xif_base.specs.MemoryShelf.{files_of};
ghost use Rattle.std.specs.Option.{option_map};
ghost use Rattle.std.specs.FinMap as map;

use crate::NoMemory;
use std::alloc::Global;
use std::collections::BTreeMap;
use std::marker::Model;

/// The files of a shelf in memory.
#[derive(Drop)]
pub(crate) struct FileMap {
    files: BTreeMap<String, Vec<u8>>,
    alloc: Global,
}

impl Model for FileMap {
    ghost use Rattle.xif_base.specs.Files.{Files};
    ghost use Rattle.xif_base.specs.MemoryShelf.{files_of, files_code};

    ghost Value = { Files };

    ghost coded = { files_code };

    ghost view = { λ m. files_of m.files };
}

impl FileMap {
    pub(crate) fn new(alloc: Global) -> Self
        ensures { result ≡ map.empty }
    {
        FileMap {
            files: BTreeMap::new(alloc),
            alloc,
        }
    }

    pub(crate) fn get(&self, name: &str) -> Option<&[u8]>
        ensures { option_map (λ bytes. bytes.now) result ≡ map.get self.now name.now }
    {
        match self.files.get(name) {
            Some(bytes) => Some(bytes.as_slice()),
            None => None,
        }
    }

    /// Puts a file there, in place of one of that name.
    pub(crate) fn insert(&mut self, name: &str, bytes: &[u8]) -> Result<(), NoMemory>
        ensures ok { OnOk result (self.new ≡ map.insert self.old name.now bytes.now) }
        ensures err { OnErr result (self.new ≡ self.old) }
    {
        let key = String::from_str(self.alloc, name)?;
        let value = Vec::from_slice(self.alloc, bytes)?;
        self.files.insert(key, value)?;
        Ok(())
    }

    /// Appends a piece to a file that is there.
    pub(crate) fn append(&mut self, name: &str, piece: &[u8]) -> Result<(), NoMemory>
        requires { IsSome (map.get self.old name.now) }
        ensures ok { OnOk result (self.new ≡ appended self.old name.now piece.now) }
        ensures err { OnErr result (self.new ≡ self.old) }
    {
        append_to(&mut self.files, name, piece)
    }
}

fn append_to(
    files: &mut BTreeMap<String, Vec<u8>>,
    name: &str,
    piece: &[u8],
) -> Result<(), NoMemory>
    requires { IsSome (map.get (files_of files.old) name.now) }
    ensures ok { OnOk result
        (files_of files.new ≡ appended (files_of files.old) name.now piece.now) }
    ensures err { OnErr result (files_of files.new ≡ files_of files.old) }
{
    match files.get_mut(name) {
        Some(bytes) => match bytes.extend_from_slice(piece) {
            Ok(()) => Ok(()),
            Err(_) => Err(NoMemory),
        },
        None => unreachable!(),
    }
}
