ghost use Rattle.std.specs.Prelude.{◌≡◌, ◌≤◌, true, map, length, OnOk};
ghost use Rattle.oracle.specs.Standing.{answer_by};
ghost use Rattle.ledger.specs.Faults.{told_answer};
ghost use Rattle.ledger.specs.Ledger.{move_of, allowed, in_shape, room_refusal, open_refusal, put_refusal, draw_refusal, draw_due, judges, opens, puts, draws};
ghost use Rattle.ledger.specs.States.{fresh, step_refusal, accepted};
ghost use Rattle.session.specs.Sessions.{state_of, report_of, Tries, Makes};
ghost use Rattle.session.specs.Statements.{opens_of, refusal_of, Fits};

use crate::state::Session;
use crate::verdicts::{Report, Verdict};
use equations::hold;
use field::Field;
use ledger::{Call, SessionFault};
use oracle::{Oracle, OracleFault};
use prover::{Statement, in_range};

impl<O: Oracle> Session<O> {
    // A session at turn 0, over the oracle, which is cleared.
    pub fn new(mut oracle: O) -> Session<O>
        ensures { state_of O.Oracle O.Elem.Field result ≡ fresh O.Elem.Field.ops (O.Oracle.stand oracle O.Elem.Field) }
    {
        oracle.clear();
        let none = O::Elem::zero();
        Session {
            oracle,
            turn: 0,
            m: 0,
            n: 0,
            alpha: none,
            beta: none,
            z: none,
            verdict: Verdict::Pending,
            count: 0,
        }
    }

    // The statement, due at turn 0: fixes the matrix and the vector as polynomials 0 and 1. Tries 11, 12, 13, 15.
    pub fn open(&mut self, statement: Statement<'_, O::Elem>) -> Result<(), SessionFault>
        ensures { Makes O.Oracle O.Elem.Field (opens_of O.Elem.Field.mean statement.entry) self.old self.new result }
    {
        self.call(&Call::Open(statement))
    }

    // The next polynomial, due at turns 1 to 3 and 6 to 9. Tries 11, 14, 15.
    pub fn put(&mut self, p: &[O::Elem]) -> Result<(), SessionFault>
        ensures { Makes O.Oracle O.Elem.Field (puts (map O.Elem.Field.mean p.now)) self.old self.new result }
    {
        self.call(&Call::Put(p))
    }

    // The next challenge: alpha at turn 4, beta at 5, z at 10. Tries 21, 22.
    pub fn draw(&mut self, x: O::Elem) -> Result<(), SessionFault>
        ensures { Makes O.Oracle O.Elem.Field (draws (O.Elem.Field.mean x)) self.old self.new result }
    {
        self.call(&Call::Draw(x))
    }

    // Tests the three equations, at turn 11. Tries 31.
    pub fn judge(&mut self) -> Result<(), SessionFault>
        ensures { Makes O.Oracle O.Elem.Field judges self.old self.new result }
    {
        self.call(&Call::Judge)
    }

    // One call. A refused one is counted and changes nothing else.
    pub fn call(&mut self, call: &Call<'_, O::Elem>) -> Result<(), SessionFault>
        ensures { Makes O.Oracle O.Elem.Field (move_of O.Elem.Field.mean call.now) self.old self.new result }
    {
        let answer = self.apply(call);
        if answer.is_err() {
            self.count = self.count.saturating_add(1);
        }
        answer
    }

    // Turn, verdict and count.
    pub fn report(&self) -> Report
        ensures { result ≡ report_of self.now }
    {
        Report {
            turn: self.turn,
            verdict: self.verdict,
            count: self.count,
        }
    }

    // Ends the session and hands its oracle back.
    pub fn into_oracle(self) -> O
        ensures { result ≡ self.oracle }
    {
        let Session {
            oracle,
            turn: _,
            m: _,
            n: _,
            alpha: _,
            beta: _,
            z: _,
            verdict: _,
            count: _,
        } = self;
        oracle
    }

    // One call, by the turn at which it comes; a refusal is not counted yet.
    fn apply(&mut self, call: &Call<'_, O::Elem>) -> Result<(), SessionFault>
        ensures { Tries O.Oracle O.Elem.Field (step_refusal O.Elem.Field.ops (state_of O.Oracle O.Elem.Field self.old) (move_of O.Elem.Field.mean call.now)) (move_of O.Elem.Field.mean call.now) self.old self.new result }
    {
        match (self.turn, call) {
            (0, Call::Open(statement)) => self.try_open(*statement),
            (1..=3 | 6..=9, Call::Put(p)) => self.try_put(p),
            (4 | 5 | 10, Call::Draw(x)) => self.try_draw(*x),
            (11, Call::Judge) => {
                self.find();
                Ok(())
            }
            (_, Call::Open(_)) => Err(SessionFault::OutOfTurn),
            (_, Call::Put(_)) => Err(SessionFault::OutOfTurn),
            (_, Call::Draw(_)) => Err(SessionFault::DrawOutOfTurn),
            (_, Call::Judge) => Err(SessionFault::JudgeOutOfTurn),
        }
    }

    // An open that is due.
    fn try_open(&mut self, statement: Statement<'_, O::Elem>) -> Result<(), SessionFault>
        ensures { Tries O.Oracle O.Elem.Field (refusal_of O.Elem.Field (O.Oracle.stand self.old.oracle O.Elem.Field) statement.entry)
            (opens_of O.Elem.Field.mean statement.entry) self.old self.new result }
    {
        self.openable(statement)?;
        self.start(statement);
        Ok(())
    }

    // Whether an open fits: 12, 13, 15.
    fn openable(&self, statement: Statement<'_, O::Elem>) -> Result<(), SessionFault>
        ensures answer { told_answer result ≡ answer_by (refusal_of O.Elem.Field (O.Oracle.stand self.now.oracle O.Elem.Field) statement.entry) }
        ensures fits { OnOk result (Fits O.Elem.Field.mean (O.Oracle.stand self.now.oracle O.Elem.Field) statement.entry) }
    {
        if !in_range::<O::Elem>(statement.m, statement.n) {
            return Err(SessionFault::BadSize);
        }
        if !in_shape(statement) {
            return Err(SessionFault::BadLength);
        }
        self.room(statement)
    }

    // Clears the oracle, fixes the matrix and the vector, and goes to turn 1.
    fn start(&mut self, statement: Statement<'_, O::Elem>)
        requires { Fits O.Elem.Field.mean (O.Oracle.stand self.old.oracle O.Elem.Field) statement }
        ensures { state_of O.Oracle O.Elem.Field self.new ≡ accepted O.Elem.Field.ops (state_of O.Oracle O.Elem.Field self.old) (opens_of O.Elem.Field.mean statement.entry) }
    {
        self.oracle.clear();
        // Both find room.
        self.oracle.fix(statement.matrix).unwrap();
        self.oracle.fix(statement.vector).unwrap();
        self.m = statement.m;
        self.n = statement.n;
        self.turn = 1;
    }

    // Whether the matrix and the vector find room together.
    fn room(&self, statement: Statement<'_, O::Elem>) -> Result<(), SessionFault>
        requires short_matrix { length statement.matrix.now ≤ 16384 }
        requires short_vector { length statement.vector.now ≤ 16384 }
        ensures { told_answer result ≡ answer_by (room_refusal (O.Oracle.stand self.now.oracle O.Elem.Field) (map O.Elem.Field.mean statement.entry.matrix.now) (map O.Elem.Field.mean statement.entry.vector.now)) }
    {
        let rows = self.oracle.needs(statement.matrix)?;
        let entries = self.oracle.needs(statement.vector)?;
        let free = self.oracle.free();
        let needed = u64::from(rows) + u64::from(entries);
        if needed > u64::from(free) {
            return Err(SessionFault::Oracle(OracleFault::NoRoom { needed, free }));
        }
        Ok(())
    }

    // A put that is due.
    fn try_put(&mut self, p: &[O::Elem]) -> Result<(), SessionFault>
        requires { self.old.turn ≤ 9 }
        ensures { Tries O.Oracle O.Elem.Field (put_refusal (O.Oracle.stand self.old.oracle O.Elem.Field) (allowed self.old.turn self.old.m self.old.n) (map O.Elem.Field.mean p.now))
            (puts (map O.Elem.Field.mean p.now)) self.old self.new result }
    {
        if p.len() > self.limit() {
            return Err(SessionFault::TooMany);
        }
        self.oracle.fix(p)?;
        self.turn += 1;
        Ok(())
    }

    // The most coefficients that a put may have.
    fn limit(&self) -> usize
        ensures { result ≡ allowed self.now.turn self.now.m self.now.n }
    {
        match self.turn {
            0..=3 => self.n,
            6 => 3 * self.n + 1,
            7 => self.m.saturating_sub(1) * (3 * self.n + 1),
            8 => 6 * self.n + 1,
            _ => (2 * self.n).saturating_sub(1),
        }
    }

    // A draw that is due.
    fn try_draw(&mut self, x: O::Elem) -> Result<(), SessionFault>
        requires { draw_due self.old.turn ≡ true }
        ensures { Tries O.Oracle O.Elem.Field (draw_refusal O.Elem.Field.ops (O.Elem.Field.mean x)) (draws (O.Elem.Field.mean x)) self.old self.new result }
    {
        if x.is_zero() {
            return Err(SessionFault::ZeroChallenge);
        }
        match self.turn {
            4 => self.alpha = x,
            5 => self.beta = x,
            _ => self.z = x,
        }
        self.turn += 1;
        Ok(())
    }

    // A judge that is due.
    fn find(&mut self)
        ensures { state_of O.Oracle O.Elem.Field self.new ≡ accepted O.Elem.Field.ops (state_of O.Oracle O.Elem.Field self.old) judges }
    {
        let n = self.n as u32;
        self.verdict = if hold(&self.oracle, n, self.alpha, self.beta, self.z) {
            Verdict::Accepted
        } else {
            Verdict::TurnedDown
        };
        self.turn = 12;
    }
}

// Whether the matrix has m rows of 3n + 1 entries, and the vector m entries.
fn in_shape<F: Field>(statement: Statement<'_, F>) -> bool
    requires few_rows { statement.m ≤ 64 }
    requires few_gates { statement.n ≤ 85 }
    ensures { result ≡ in_shape statement.entry.m statement.entry.n (length (map F.Field.mean statement.entry.matrix.now)) (length (map F.Field.mean statement.entry.vector.now)) }
{
    let size = statement.m * (3 * statement.n + 1);
    statement.matrix.len() == size && statement.vector.len() == statement.m
}
