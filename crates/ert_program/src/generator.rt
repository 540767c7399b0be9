use ert_defs::When;
use ert_ops::Op;

// The constants of Knuth's generator for 64 bits (MMIX).
const FACTOR: u64 = 6_364_136_223_846_793_005;

const SUMMAND: u64 = 1_442_695_040_888_963_407;

/// What the next op is made from.
#[derive(Clone, Copy, Debug)]
pub(crate) struct Generator {
    /// What the last draw left.
    x: u64,
    /// The last reading of the clock that was made, in nanoseconds.
    mono: i64,
    sys: i64,
    /// The label of the next start, and its message.
    next: u32,
}

impl Generator {
    ghost use Rattle.std.specs.Prelude.{◌≡◌, ◌<◌, ◌+◌, ◌+ℤ◌, ◌-ℤ◌, ◌≤ℤ◌, pos};
    ghost use Rattle.ert_program.specs.{Draws.{after, draw}, Steps.{IsBounded, first, step_of, fall_of, made_tick, made_start, op_for, next_op}};

    /// Before the first op.
    pub(crate) fn new(seed: u64) -> Generator
        ensures { result ≡ first seed }
    {
        Generator {
            x: seed,
            mono: 0,
            sys: 0,
            next: 0,
        }
    }

    /// Makes the next op.
    pub(crate) fn next_op(&mut self) -> Op
        requires { IsBounded self.old }
        ensures op { result ≡ (next_op self.old).op }
        ensures later { self.new ≡ (next_op self.old).later }
    {
        let choice = self.draw(8);
        self.op_for(choice)
    }

    fn op_for(&mut self, choice: u64) -> Op
        requires { IsBounded self.old }
        ensures op { result ≡ (op_for choice self.old).op }
        ensures later { self.new ≡ (op_for choice self.old).later }
    {
        match choice {
            0 | 1 => self.tick(),
            2 | 3 => self.start(),
            4 => Op::Cancel {
                label: self.label(),
            },
            5 => Op::Read {
                label: self.label(),
            },
            6 => Op::Turn {
                sched: self.draw(4) as u32,
            },
            _ => Op::Receive {
                process: self.draw(8) as u32,
            },
        }
    }

    /// Draws a number below `below`.
    fn draw(&mut self, below: u64) -> u64
        requires { 0 < below }
        ensures value { result ≡ draw below self.old.x }
        ensures later { self.new ≡ record self.old { x = after self.old.x } }
        ensures low { result < below }
    {
        self.x = self.x.wrapping_mul(FACTOR).wrapping_add(SUMMAND);
        (self.x >> 33) % below
    }

    fn tick(&mut self) -> Op
        requires { IsBounded self.old }
        ensures op { result ≡ (made_tick self.old).op }
        ensures later { self.new ≡ (made_tick self.old).later }
    {
        let step = self.step();
        let fall = self.fall();
        self.go_on(step, fall)
    }

    fn go_on(&mut self, step: i64, fall: i64) -> Op
        requires room { IsBounded self.old }
        requires step_low { pos 0 ≤ℤ step }
        requires step_high { step ≤ℤ pos 50000000 }
        requires fall_low { pos 0 ≤ℤ fall }
        requires fall_high { fall ≤ℤ pos 1000000000 }
        ensures op { result ≡ Op.Tick self.new.mono self.new.sys }
        ensures mono { self.new.mono ≡ self.old.mono +ℤ step }
        ensures sys { self.new.sys ≡ (self.old.sys +ℤ step) -ℤ fall }
        ensures x { self.new.x ≡ self.old.x }
        ensures next { self.new.next ≡ self.old.next }
    {
        self.mono += step;
        self.sys = self.sys + step - fall;
        Op::Tick {
            mono: self.mono,
            sys: self.sys,
        }
    }

    /// How far both clocks go on: 1 to 50 milliseconds.
    fn step(&mut self) -> i64
        ensures value { result ≡ step_of self.old.x }
        ensures later { self.new ≡ record self.old { x = after self.old.x } }
        ensures low { pos 0 ≤ℤ result }
        ensures high { result ≤ℤ pos 50000000 }
    {
        1_000_000 * (1 + self.draw(50) as i64)
    }

    /// How far OS system time falls after that: once in 64 ticks by a second.
    fn fall(&mut self) -> i64
        ensures value { result ≡ fall_of self.old.x }
        ensures later { self.new ≡ record self.old { x = after self.old.x } }
        ensures low { pos 0 ≤ℤ result }
        ensures high { result ≤ℤ pos 1000000000 }
    {
        match self.draw(64) {
            0 => 1_000_000_000,
            _ => 0,
        }
    }

    fn start(&mut self) -> Op
        requires { IsBounded self.old }
        ensures op { result ≡ (made_start self.old).op }
        ensures later { self.new ≡ (made_start self.old).later }
    {
        let label = self.next;
        let wheel = self.draw(4) as u32;
        let when = When::After(self.draw(200) as i64);
        let dest = self.draw(8) as u32;
        self.next += 1;
        Op::Start {
            label,
            wheel,
            when,
            dest,
            msg: u64::from(label),
        }
    }

    /// The label of a start that was made, or of the next one.
    fn label(&mut self) -> u32
        requires { IsBounded self.old }
        ensures label { result ≡ draw (self.old.next + 1) self.old.x }
        ensures later { self.new ≡ record self.old { x = after self.old.x } }
    {
        self.draw(u64::from(self.next) + 1) as u32
    }
}
