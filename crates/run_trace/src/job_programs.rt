//! The programs of a job, as the definitions have them.

ghost use Rattle.std.specs.Prelude.{◌≡◌, ◌∷◌, ◌++◌, ℕ, [], List, OnErr, OnOk};
ghost use Rattle.insn_codec.specs.declared.insn.Placed.{Placed};
ghost use Rattle.helpers.specs.Table.{job_table};
ghost use Rattle.machine_model.specs.Machine.{Program};
ghost use Rattle.verifier.specs.Checked.{Checked};
ghost use Rattle.verifier.specs.Refusals.{IsAccepted};
ghost use Rattle.run_trace.specs.Spelled.{IsSpelled, listings_of, programs_of};

use cost_bound::costs;
use flow_graph::{FlowFault, build};
use insn_codec::{CodecFault, Placed, decode};
use reference::ReferenceProgram;
use refusal::NoMemory;
use std::alloc::Global;

/// The instructions of a program.
#[derive(Drop)]
pub struct Listed {
    pub placed: Vec<Placed>,
}

/// The programs of a job by their numbers, and the instructions of each.
#[derive(Drop)]
pub struct JobPrograms {
    pub listings: Vec<Listed>,
    pub programs: Vec<ReferenceProgram>,
}

impl JobPrograms {
    /// No program yet.
    pub fn none(alloc: Global) -> JobPrograms
        ensures listings { listings_of result ≡ [] }
        ensures programs { programs_of result ≡ [] }
    {
        JobPrograms {
            listings: Vec::new(alloc),
            programs: Vec::new(alloc),
        }
    }

    /// One program more, which is accepted. Refused for want of memory alone, after which the
    /// programs are as they were.
    pub fn add(&mut self, alloc: Global, need: u32, code: &[u8]) -> Result<(), NoMemory>
        requires { (v : Checked) × IsAccepted need code.now job_table v }
        ensures added { OnOk result ((placed : List Placed) × (p : Program)
            × IsSpelled need code.now placed p
            × (listings_of self.new ≡ listings_of self.old ++ placed ∷ [])
            × (programs_of self.new ≡ programs_of self.old ++ p ∷ [])) }
        ensures refused { OnErr result ((self.new.listings.items ≡ self.old.listings.items)
            × (self.new.programs.items ≡ self.old.programs.items)) }
    {
        let placed = match decode(alloc, code) {
            Ok(placed) => placed,
            Err(CodecFault::NoMemory) => return Err(NoMemory),
            Err(_) => unreachable!(),
        };
        let graph = match build(alloc, &placed) {
            Ok(graph) => graph,
            Err(FlowFault::NoMemory) => return Err(NoMemory),
            Err(_) => unreachable!(),
        };
        let table = costs(alloc, &graph)?;
        let arities = [None, Some(4), Some(0), Some(0), Some(3), Some(2)];
        let registered = Vec::from_array(alloc, arities)?;
        self.listings.reserve(1)?;
        self.programs.reserve(1)?;
        self.programs.push_reserved(ReferenceProgram {
            need,
            code: graph.into_code(),
            costs: table.into_table(),
            registered,
        });
        self.listings.push_reserved(Listed { placed });
        Ok(())
    }
}
