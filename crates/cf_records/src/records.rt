//! The handler of records.
ghost use Rattle.std.specs.Prelude.{◌≡◌, IsTrue, IfOk, codes};
ghost use Rattle.cf_handler.specs.Name.{is_lane_name};
ghost use Rattle.cf_handler.specs.Shipped.{record_schema};
ghost use Rattle.cf_answers.specs.Fits.{FitsLane};
ghost use Rattle.cf_tokens.specs.Places.{folder_of};
ghost use Rattle.cf_tokens.specs.Under.{under};

use cf_answers::answer_to;
use cf_handler::{Handler, record_schema};
use cf_schema::Schema;
use cf_tokens::{Gate, Place, Stores, System, Table, TableHandler, Trouble};
use cf_tree::{Answer, NoMemory, Request, Txt};

/// Records are the rows of the table: a settled row is all that there is to do.
#[derive(Clone, Copy, Debug)]
pub struct Rows;

/// The handler of the records of a lane. They stand in `HOME/records/rows`, a row for each settled call.
pub type RecordsHandler<R> = TableHandler<R, Rows>;

impl Stores for Rows {
    fn finish<R: System>(&self, _rt: &R, _table: &mut Table) -> Result<(), Trouble> {
        Ok(())
    }

    fn settle<R: System>(
        &self,
        rt: &R,
        name: &Txt,
        schema: &Schema,
        table: &mut Table,
        token: u64,
        request: &Request,
    ) -> Result<Answer, Trouble> {
        let alloc = rt.alloc();
        let live = table.known().met(request);
        let settlement = answer_to(alloc, schema, name.as_str(), token, live, request)?;
        let answer = table.answer(rt, name, token, request, &settlement)?;
        let path = Txt::new(String::new(alloc));
        table.settle(rt, Gate::Done, &path, token, request, &settlement)?;
        Ok(answer)
    }
}

/// The lane of records of this name in a home. Nothing is opened yet.
///
/// # Errors
/// Want of memory.
pub fn records_handler<R: System + Drop>(
    rt: R,
    home: &str,
    name: &str,
) -> Result<RecordsHandler<R>, NoMemory>
    requires { IsTrue (is_lane_name name.now) }
    ensures label { IfOk result (λ h. ⟦<RecordsHandler<R> as Handler>⟧.label h ≡ name.now) }
    ensures schema { IfOk result (λ h. ⟦<RecordsHandler<R> as Handler>⟧.schema_of h ≡ record_schema) }
    ensures faultless { IfOk result (λ h. ⟦<RecordsHandler<R> as Handler>⟧.count h ≡ 0) }
    ensures folder { IfOk result (λ h. folder_of h ≡ under home.now (codes "records")) }
{
    let alloc = rt.alloc();
    let place = Place::new(alloc, home, "records", "rows")?;
    let schema = record_schema(alloc)?;
    TableHandler::new(rt, Rows, place, name, schema)
}
