ghost use Rattle.std.specs.Prelude.{◌≡◌, ◌++◌, ◌∷◌, [], OnOk, OnErr};
ghost use Rattle.ert_defs.specs.Mails.{first_of, others_of};

use ert_defs::NoMemory;
use std::collections::VecDeque;

/// Puts an item last in a list. Without memory the list stays as it was.
pub fn push<T: Copy>(list: &mut Vec<T>, item: T) -> Result<(), NoMemory>
    ensures put { OnOk result (list.new.items ≡ list.old.items ++ item ∷ []) }
    ensures kept { OnErr result (list.new.items ≡ list.old.items) }
{
    match list.push(item) {
        Ok(()) => Ok(()),
        Err(_) => Err(NoMemory),
    }
}

/// Puts an item last in a queue.
pub fn put<T: Copy>(queue: &mut VecDeque<T>, item: T) -> Result<(), NoMemory>
    ensures { OnOk result (queue.new.items ≡ queue.old.items ++ item ∷ []) }
{
    match queue.push_back(item) {
        Ok(()) => Ok(()),
        Err(_) => Err(NoMemory),
    }
}

/// Drops the first item of a queue, where there is one.
pub fn drop_first<T: Copy>(queue: &mut VecDeque<T>)
    ensures { queue.new.items ≡ others_of queue.old.items }
{
    queue.pop_front();
}

/// The first item of a queue.
pub fn first<T: Copy>(queue: &VecDeque<T>) -> Option<T>
    ensures { result ≡ first_of queue.now.items }
{
    queue.front().copied()
}
