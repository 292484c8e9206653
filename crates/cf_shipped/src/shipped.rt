//! The lanes that are shipped.
ghost use Rattle.std.specs.Prelude.{◌≡◌, IsTrue, IfOk, codes};
ghost use Rattle.cf_handler.specs.Name.{is_lane_name};
ghost use Rattle.cf_handler.specs.Shipped.{file_schema, record_schema};
ghost use Rattle.cf_tokens.specs.Under.{under};

use cf_files::{FilesHandler, files_handler};
use cf_handler::{FenceAnswer, Handler};
use cf_records::{RecordsHandler, records_handler};
use cf_schema::Schema;
use cf_tree::{Answer, Look, NoMemory, Request, Txt};
use std::fs::File;
use std::rt::Files;

/// A handler of files or of records, which each call is passed on to.
#[derive(Drop)]
pub enum Shipped<R: Files<File = File> + AllocGlobal + Eprint + Drop> {
    Files(FilesHandler<R>),
    Records(RecordsHandler<R>),
}

impl<R: Files<File = File> + AllocGlobal + Eprint + Drop> Handler for Shipped<R> {
    ghost use Rattle.std.specs.Prelude.{None};
    ghost use Rattle.cf_shipped.specs.Shipped.{count_of, label_of, schema_of};

    ghost label = { λ h. label_of h };

    ghost schema_of = { λ h. schema_of h };

    ghost count = { λ h. count_of h };

    ghost told = { λ _. None };

    fn name(&self) -> &str {
        match self {
            Shipped::Files(lane) => lane.name(),
            Shipped::Records(lane) => lane.name(),
        }
    }

    fn schema(&self) -> &Schema {
        match self {
            Shipped::Files(lane) => lane.schema(),
            Shipped::Records(lane) => lane.schema(),
        }
    }

    fn faults(&self) -> u64 {
        match self {
            Shipped::Files(lane) => lane.faults(),
            Shipped::Records(lane) => lane.faults(),
        }
    }

    fn fence(&mut self, epoch: u64) -> FenceAnswer {
        match self {
            Shipped::Files(lane) => lane.fence(epoch),
            Shipped::Records(lane) => lane.fence(epoch),
        }
    }

    fn call(&mut self, epoch: u64, token: u64, request: &Request) -> Answer {
        match self {
            Shipped::Files(lane) => lane.call(epoch, token, request),
            Shipped::Records(lane) => lane.call(epoch, token, request),
        }
    }

    fn read(&mut self, epoch: u64, physical: &Txt) -> Look {
        match self {
            Shipped::Files(lane) => lane.read(epoch, physical),
            Shipped::Records(lane) => lane.read(epoch, physical),
        }
    }
}

impl<R: Files<File = File> + AllocGlobal + Eprint + Drop> Shipped<R> {
    ghost use Rattle.cf_shipped.specs.Shipped.{folder_of};

    /// The lane of files of this name in a home. Nothing is opened yet.
    ///
    /// # Errors
    /// Want of memory.
    pub fn files(rt: R, home: &str, name: &str) -> Result<Shipped<R>, NoMemory>
        requires { IsTrue (is_lane_name name.now) }
        ensures label { IfOk result (λ h. ⟦<Shipped<R> as Handler>⟧.label h ≡ name.now) }
        ensures schema { IfOk result (λ h. ⟦<Shipped<R> as Handler>⟧.schema_of h ≡ file_schema) }
        ensures faultless { IfOk result (λ h. ⟦<Shipped<R> as Handler>⟧.count h ≡ 0) }
        ensures folder { IfOk result (λ h. folder_of h ≡ under home.now (codes "files")) }
    {
        Ok(Shipped::Files(files_handler(rt, home, name)?))
    }

    /// The lane of records of this name in a home. Nothing is opened yet.
    ///
    /// # Errors
    /// Want of memory.
    pub fn records(rt: R, home: &str, name: &str) -> Result<Shipped<R>, NoMemory>
        requires { IsTrue (is_lane_name name.now) }
        ensures label { IfOk result (λ h. ⟦<Shipped<R> as Handler>⟧.label h ≡ name.now) }
        ensures schema { IfOk result (λ h. ⟦<Shipped<R> as Handler>⟧.schema_of h ≡ record_schema) }
        ensures faultless { IfOk result (λ h. ⟦<Shipped<R> as Handler>⟧.count h ≡ 0) }
        ensures folder { IfOk result (λ h. folder_of h ≡ under home.now (codes "records")) }
    {
        Ok(Shipped::Records(records_handler(rt, home, name)?))
    }
}
