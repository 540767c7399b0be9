//! The names of processes (`erlang` module reference, `register`, `unregister` and `whereis`).
ghost use Rattle.std.specs.Prelude.{◌≡◌, true, false};
ghost use Rattle.ert_names.specs.Calls.{IsValidName};

use crate::named::NameErr;
use crate::world::{NameWorld, REGISTRAR};
use ert_defs::NoMemory;

/// How many bytes a name may have at most.
const LONGEST_NAME: usize = 255;

impl NameWorld {
    ghost use Rattle.std.specs.Prelude.{◌<◌, is_some, IfSome};
    ghost use Rattle.std.specs.FinMap as map;
    ghost use Rattle.ert_names.specs.{Calls.{Registers, AreFree}, Living.Lives};

    /// Gives a name to a process that has none.
    ///
    /// BadArg comes where the name has no byte or more than 255, or is `undefined`, or is in use, or where
    /// the process is 0, has a name or has exited. After a refusal no name has changed; that the process was
    /// looked at is recorded.
    pub fn register(&mut self, name: &str, process: u32) -> Result<(), NameErr>
        requires { process < self.old.world.settings.processes }
        ensures call { Registers self.old name.now process result self.new }
    {
        if !self.are_free(name, process) {
            return Err(NameErr::BadArg);
        }
        if !self.world.is_alive(process) {
            return Err(NameErr::BadArg);
        }
        match self.registry.insert(self.alloc, name, process) {
            Ok(()) => Ok(()),
            Err(NoMemory) => Err(NameErr::NoMemory),
        }
    }

    /// Whether a name may be given to a process, if that lives.
    fn are_free(&self, name: &str, process: u32) -> bool
        ensures free { result ≡ true → AreFree self.now.names name.now process }
        ensures taken { result ≡ false → AreFree self.now.names name.now process → ⊥ }
    {
        if !is_name(name) || process == REGISTRAR {
            return false;
        }
        if self.registry.process(name).is_some() {
            return false;
        }
        !self.registry.has_name(process)
    }

    /// Takes a name from its process, and answers whether a process had it.
    pub fn unregister(&mut self, name: &str) -> bool
        ensures answer { result ≡ is_some (map.get self.old.names name.now) }
        ensures names { self.new ≡ record self.old { names = map.remove self.old.names name.now } }
    {
        self.registry.remove(name).is_some()
    }

    /// The process that has a name. It lives.
    pub fn whereis(&self, name: &str) -> Option<u32>
        ensures value { result ≡ map.get self.now.names name.now }
        ensures lives { IfSome result (Lives self.now.world) }
    {
        self.registry.process(name)
    }
}

/// Whether a text may be a name: it has 1 to 255 bytes and isn't `undefined`.
fn is_name(name: &str) -> bool
    ensures name { result ≡ true → IsValidName name.now }
    ensures other { result ≡ false → IsValidName name.now → ⊥ }
{
    1 <= name.len() && name.len() <= LONGEST_NAME && name != "undefined"
}
