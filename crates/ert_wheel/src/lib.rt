//! The timing wheel of levels: the rows of a scheduler's timers by their slots, and the due ones in order of
//! deadline. It stands on `ert_defs` for `NoMemory` alone.
//!
//! **Chains** (`Chains`). A slot is in the chain of one home, or in none. A chain is a ring of links through its head. A
//! slot in no chain is alone in a ring of its own. So putting a slot in writes four links, as does taking it out, with
//! no case for an empty chain, a first or a last slot, or a slot in none. A chain runs from its newest slot to its
//! oldest. The links stand in one vector, 8 bytes each: those of the heads, and behind them those of the slots that are
//! written.
//!
//! **Written slots.** The links and the record of a slot are written when it is first used, and with them those of the slots
//! below it (`write_up_to`). There is room for all slots from the beginning, so this takes no memory. A call on a slot
//! requires that it is written, so no use of a slot tests that; whoever takes a slot for the first time writes it before. A
//! contract sees a slot that isn't written as one without a row and in no chain. So where slots are taken from the lowest on,
//! memory is touched for no more of them than were ever in use.
//!
//! A wheel has two: the chains of the buckets, and beside these the chains of the owners, with as many heads as there
//! are owners. What is read and written in one stays out of the caches' lines of the other: a cancel touches links of
//! 8 bytes and nothing else of the wheel.
//!
//! Whether a slot has a row is told by its link among the buckets' alone. So `remove` reads and writes these links and
//! nothing else, and a row's deadline stays where it was stored until the slot has another. `Chains` knows nothing of rows:
//! why a slot belongs to a home is the wheel's or its user's to know, and a contract speaks of every assignment of
//! places that fits.
//!
//! **Records** (`Kept`). The value that the wheel's user keeps of a slot has the key of the slot's last row in it, a deadline
//! and an order, and tells them (`Keyed`). So a start writes one place for all, the user packs them as it likes, and where a row
//! moves to a lower level, what its expiry will read comes into the caches. A row's order is its rank among all rows that were
//! put in, as the user counts them.
//!
//! **Another row of a slot** (`replace`) takes the place of the one before it. Where it is due in no earlier window of 512
//! milliseconds than that one, and that window comes after the next one, the slot stays in its bucket, and no link is written: when
//! time comes to the bucket the row goes to that of its deadline. So a timer that each packet of a connection moves on stays where
//! it is until the time at which it was due at first, and then moves once. The slot stays too where it is the newest of the bucket
//! to which the new row belongs.
//!
//! **Levels** (`Wheel`). A wheel has 4,288 buckets, 1,024 on each of four levels and 192 on the highest. A bucket of
//! the lowest level is a millisecond; one of the next is a window of 512 milliseconds, and so on: a bucket of each level
//! is as wide as 512 of the level below. So a level has room for two such windows: the one in which the next time is, the
//! first that wasn't passed, and the one after it. The windows of a level take its buckets in turn. A row comes to the
//! lowest level that has its deadline. With the next time at 1,000:
//!
//!     level   a bucket is       deadlines that come to it
//!     0       1 ms              1,000 .. 1,535
//!     1       512 ms            1,536 .. 524,287
//!     2       262,144 ms        524,288 .. 268,435,455
//!     3       134,217,728 ms    268,435,456 .. 137,438,953,471
//!     4       68,719,476,736 ms 137,438,953,472 .. 13,194,139,533,311
//!
//! A row that is late has the bucket of the next time itself. The 192 are for deadlines of up to 418 years of
//! milliseconds.
//!
//! A row stands in the bucket of its deadline, or of an earlier time: where it stands is no later than it is due (`AreLevelled`). One
//! whose slot stayed where it was may so stand too early. On the lowest level no row does, since no slot stays there.
//!
//! **Rows fall** (`falling`) to lower levels as time goes on. When time comes into the window of a bucket, each row that is left in
//! it goes to the bucket of its deadline on the level below. One that stood too early goes to the least bucket of its deadline: that may be a
//! later window of the same level or of one above. Where time leaps it comes from the begin of one window that has rows to that of the
//! next, so that no such row is passed. Before time comes into a window some rows fall ahead of time, out of the bucket of the next
//! window: so many for each millisecond that passes as leave few for the begin of the window, at first few and then more.
//! How many fall ahead is a matter of speed alone: whether a row has fallen yet changes no answer.
//!
//! The newest slot of a bucket falls first, and it comes to the oldest end of the bucket below. New rows come to the newest end. So
//! a bucket's rows mostly stand in order of start, but where some were replaced. No clause needs that: a chain is a set of slots.
//! Whoever tells rows puts them in order: a step of time sorts those that are due, and `first_due` puts the bucket of the next time in order
//! (`ordering`) before it tells the first row of it. A fall costs as much as a start does in the wheel, with two misses of the
//! caches where there are many rows.
//!
//! **Marks** (`Marks`, `MarkedChains`). A bit for each bucket tells whether it has a slot: a put into an empty one sets
//! it, and a take of the only slot clears it. All other puts and takes leave the bits alone. One more word has a bit
//! for each of the first 64 words, which are those of the four lower levels. So no look comes to an empty bucket: a look at
//! the windows of a level reads six words at most, however far the next row is.
//!
//! **A step of time** visits the buckets that have rows: on each level those of the windows up to that of the time that it
//! comes to, and each from its oldest row to its newest. A sort by deadline and then by order puts all into order: an order is
//! read only where two deadlines are the same. It takes no memory, and one pass where the rows come in order already, as
//! they mostly do from the lowest level. Where the time that it comes to is in the next time's window of 512
//! milliseconds, all that are due stand on the lowest level.
//!
//! **The next due row** (`next_due`) is in the first bucket of a level that has one. On the lowest level the bucket tells its
//! deadline; in the next time's window of 512 milliseconds this is the answer, since no row of another level is there.
//! Else a row above may be earlier. Level by level, the rows of the first buckets that have some are looked at, as long as a
//! bucket's window begins before what is known, and 64 rows of a level at most. Where there are more, the begin of the window that
//! comes next is told: when time comes to it, the bucket's rows go to where they are due. So a loop wakes early once at most for each
//! window of 512 milliseconds (`answers_are_rare`), and not at all for a few rows that stand too early. Late rows
//! have the bucket of the next time and deadlines of any age, so all rows of that bucket are looked at where a late one was
//! put in since the next time moved on. A floor below all deadlines tells whether that was so. Those rows are due at once,
//! or at the next millisecond, so that the next advance takes them. The answer becomes the floor, and the slot of a row that
//! tells it is kept. While time hasn't come to the answer, and that row is due then or the bucket of the window that begins then has
//! a row, the answer stays, and an advance before it looks at nothing else.
//!
//! **The first due row** (`first_due`) is told one at a time, for whoever may not take all that are due at once. Time moves
//! on to the least deadline first, where that is due. Then the row is in the bucket of the next time: the oldest that has
//! that deadline. The bucket is put in order of start first, so much of it in a call as its bound allows. A walk from the newest
//! row down tells whether it is so already (`rising`). Where it isn't, the rows are taken into a heap in a vector that the caller
//! lends, and then each is made the newest of the bucket, in order of start (`renewing`); after that comes the walk. What is kept of
//! that between the calls are hints, but for how far the walk has come: it holds whatever rows come in or go. Then the first row is the
//! bucket's oldest, but where rows were put in late; the floor tells their least deadline once it was looked for. So a call looks at
//! one row, and at all of that bucket once for each deadline of late rows. A late row that is older than another and has a later deadline is looked at before that one. Where
//! no row is due, time passes the time that was asked for.
//!
//! So many rows at most fall in such a call, whatever time has leapt. Before time comes into another window of a level it
//! stands in the last millisecond before that, until the bucket of the window is empty: the windows of the highest level
//! first, so four times at most. Where more rows are left than may fall, or to be put in order, the call says so, and the next one goes on there. Rows of
//! the windows between stood too early; they move without a stop, and on each level there are no more than `next_due` looks at.
//!
//! **Owners.** `own` puts a slot into the chain of an owner as its newest, `disown` takes it out, `is_owned` tells whether
//! it is in one, and `newest_owned` tells the newest of an owner. This hangs on no row: a slot may have an owner without a row, and a row without an owner.
//!
//! **At rest** a slot takes its value and 16 bytes of links; an owner 8 bytes for its head; and a wheel
//! 33.5 KiB for the heads of its buckets, and 544 bytes for the marks. All is taken when the wheel is made, and no call
//! takes memory after that; what is written then are the heads and the marks.
//!
//! `due` gives the due rows and leaves them, so that the part above can settle and `remove` them one by
//! one, and then tell by `pass` that nothing is left; `advance` does all three. `first_due` leaves its row too. What they answer is said
//! of the list of the slots' keys and of the first time that wasn't passed, which leaves values and owners as they are; no
//! clause of a wheel shows a bucket.
//!
//! No clause says which levels and buckets there are, how many a call looks at, or how many rows fall to a lower level,
//! ahead of time or within the bound of `first_due`.
//!
//! **Choices.**
//!
//! - **A wheel is seen as one place for each slot**: to insert and to remove is to set one place.
//! - **A wheel has room for a row of each slot from the start**, so `insert` takes no memory and can't fail.
//! - **`insert` has conditions and no answer**: slot, absence of a row, and order are known to its callers. The
//!   greatest number of 64 bits marks a slot without a row.
//! - **A wheel takes at most 2^30 slots**, and as many owners, so that slots and heads together have numbers of 32
//!   bits.
//! - **`due` gives the due rows and leaves them, and `pass` says that they are gone** (`passed`): the part above
//!   reserves memory by their number before its first step.
//! - **Chains are a type of their own**: buckets and the timers of a process are the same rings, with the heads in the
//!   vector of the links, so that no write needs a branch.
//! - **When the next timer is due is kept with the row that tells it.** A loop asks after each turn. Each time 64 rows
//!   of a full bucket were looked at in vain: more work than the three restarts of a packet. `next_due` keeps its
//!   answer as the floor below which no row is due, and the slot of a row that tells it. As long as time hasn't come to the answer, a later call
//!   looks at that row and at one bucket alone: if the row is still there and due then, or the bucket of the window that begins
//!   then has a row, the answer stands. An earlier row that is put in is the next answer. A removal writes nothing for it.
//!   So it takes the wheel by `&mut`, though it changes nothing that a contract shows. A turn before the floor is one
//!   comparison. The price: Where the last row of that bucket moves to another, the next call looks anew.
//! - **A row stays where it is when it is restarted to a later window.** A server restarts most timers before they are due.
//!   Where each restart moved the row, it missed the caches four times. The price: A row moves once more when time comes to where it
//!   stands, a loop may wake early once for each window, and orders are kept with the rows, since the chains don't tell them.
//! - **Records begin where the allocator puts them.** The allocator gives a large block at 16 modulo 64, so a record
//!   may lie on two lines of the caches. It stays so. The toolchain has no alignment to ask for: it refuses
//!   `repr(align)`, `Global` refuses an alignment above 16, and an allocator of the repository's own would be unsafe
//!   code with proofs of its own. So of the records, which have 32 bytes, each second one lies on two lines. The price:
//!   In the same steps in C, with 100,000 timers, a start in a slot that was used misses a cache of 1 MiB 4.04 times.
//!   If the first record began a line, it would miss 3.52 times.
#![tactic(auto)]

mod chains;
mod falling;
mod heap;
mod kept;
mod keyed;
mod laws;
mod levels;
mod links;
mod marked;
mod marks;
mod oldest;
mod ordered;
mod ordering;
mod renewing;
mod rising;
mod row;
mod sorting;
mod telling;
mod walk;
mod wheel;
mod windows;

pub use keyed::Keyed;
pub use laws::answers_are_rare;
pub use row::{BUCKETS, FirstDue, HeldRow, Key, Row};
pub use wheel::Wheel;
