//! The reasons why a store can't be used, as far as the system reports them.
ghost use Rattle.std.specs.Prelude.{◌≡◌};
ghost use Rattle.thes_command_line.specs.Trouble as troubles;
ghost use Rattle.thes_command_line.specs.Trouble.{words_of};

use thes_base::fault::Fault;

/// The reason for the fault `Store` of the store in a file.
#[derive(Clone, Copy, Debug, PartialEq, Eq)]
pub enum StoreTrouble {
    /// Another program has the file open.
    InUse,
    /// The file doesn't exist and the task makes none, its folder doesn't exist, or its name no
    /// longer leads to the file that was open.
    NoFile,
    /// There is no database in the file: it holds something else, isn't a regular file, or is empty
    /// and the task makes no store.
    NotDatabase,
    /// The file has another name, a hard link.
    Linked,
    /// The names of the files next to the store's file would be too long for the system.
    LongName,
    /// The file can't be read, or no other reason is known for a failure to read the store.
    Unreadable,
    /// The file can't be written or made, or no other reason is known for a failure to open, make
    /// or migrate the store.
    Unwritable,
    /// The disk is full.
    NoRoom,
    /// The database in the file is damaged.
    Damaged,
    /// SQLite was cut short, and left a journal.
    Journal,
    /// The schema of the database lists something that can't be read.
    UnknownSchema,
}

impl StoreTrouble {
    /// Returns the words for the reason, as they are printed after the name of the file.
    pub fn words(self) -> &'static str
        ensures { result.now ≡ words_of self }
    {
        match self {
            StoreTrouble::InUse => "in use by another program",
            StoreTrouble::NoFile => "no such file",
            StoreTrouble::NotDatabase => "not a database",
            StoreTrouble::Linked => "the file has a second name",
            StoreTrouble::LongName => "the name is too long",
            StoreTrouble::Unreadable => "can't be read",
            StoreTrouble::Unwritable => "can't be written",
            StoreTrouble::NoRoom => "no room",
            StoreTrouble::Damaged => "damaged",
            StoreTrouble::Journal => "SQLite was cut short, and left a journal",
            StoreTrouble::UnknownSchema => "something in its schema can't be read",
        }
    }
}

/// Returns the reason and the fault if the names of the files next to a store's file are too long
/// for the system, or couldn't be checked.
pub fn name_trouble(has_long_name: Result<bool, Fault>) -> Option<(StoreTrouble, Fault)>
    ensures { result ≡ troubles.name_trouble has_long_name }
{
    match has_long_name {
        Ok(true) => Some((StoreTrouble::LongName, Fault::Store)),
        Ok(false) => None,
        Err(fault) => Some((StoreTrouble::Unreadable, fault)),
    }
}
