ghost use Rattle.std.specs.Prelude.{map};
ghost use Rattle.ledger.specs.Ledger.{move_of};
ghost use Rattle.ledger.specs.Law.{Law};
ghost use Rattle.session.specs.Sessions.{state_of};

use crate::state::Session;
use ledger::Call;
use oracle::Oracle;

// Makes a new session over the oracle, and every call on it, refused ones included. The law over runs holds of
// the session after it, and so of what it reports.
pub fn run<O: Oracle>(oracle: O, calls: &[Call<'_, O::Elem>]) -> Session<O>
    ensures { Law O.Elem.Field.ops (O.Oracle.stand oracle O.Elem.Field) (map (move_of O.Elem.Field.mean) calls.now) (state_of O.Oracle O.Elem.Field result) }
{
    let mut session = Session::new(oracle);
    for call in calls {
        let _ = session.call(call);
    }
    session
}
