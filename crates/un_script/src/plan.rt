//! The planned faults.

ghost use Rattle.std.specs.Prelude.{◌≡◌, ◌∷◌, ◌++◌, [], Some, IsTrue, length, OnOk, OnErr};
ghost use Rattle.std.specs.Ordering.{nat_cmp};
ghost use Rattle.std.specs.BTreeMap.{IsUnchanged, Updates};
ghost use Rattle.un_frame.specs.declared.kinds.Planned.TheVariants.{Clean};
ghost use Rattle.un_journal.specs.Script.{planned_in};
ghost use Rattle.un_script.specs.Table.{is_fault};

use std::alloc::{AllocError, Global};
use std::collections::BTreeMap;
use std::marker::Model;
use un_frame::{Lane, Planned};
use un_journal::PlannedFault;

/// The planned faults in the order in which they came, found by lane and serial.
#[derive(Drop)]
pub struct Plan {
    faults: Vec<PlannedFault>,
    outward: BTreeMap<u64, Planned>,
    inward: BTreeMap<u64, Planned>,
}

impl Model for Plan {
    ghost use Rattle.std.specs.Prelude.{List};
    ghost use Rattle.un_frame.specs.declared.params.Lane.TheVariants.{Outward, Inward};
    ghost use Rattle.un_journal.specs.declared.controls.PlannedFault.{PlannedFault};
    ghost use Rattle.std.specs.List.{AllByRecursion};
    ghost use Rattle.un_script.specs.Plan.{Finds, PlansFault};

    ghost Value = { List PlannedFault };

    ghost view = { λ p. p.faults.items };

    ghost invariant = { λ p. Finds Outward p.faults.items p.outward × Finds Inward p.faults.items p.inward × AllByRecursion PlansFault p.faults.items };
}

impl Plan {
    /// No fault is planned.
    pub fn make(alloc: Global) -> Plan
        ensures { result ≡ [] }
    {
        Plan {
            faults: Vec::new(alloc),
            outward: BTreeMap::new(alloc),
            inward: BTreeMap::new(alloc),
        }
    }

    /// How many faults are planned.
    pub fn len(&self) -> usize
        ensures { result ≡ length self.now }
    {
        self.faults.len()
    }

    /// What is planned for a transfer: `Clean` exactly where it has no fault.
    pub fn find(&self, lane: Lane, serial: u64) -> Planned
        ensures { result ≡ planned_in self.now lane serial }
    {
        let fault = match lane {
            Lane::Outward => self.outward.get(&serial),
            Lane::Inward => self.inward.get(&serial),
        };
        fault.copied().unwrap_or(Planned::Clean)
    }

    /// Plans a fault, which isn't `Clean`, for a transfer that has none. After the error, which is want of memory, the plan is unchanged.
    pub fn add(&mut self, fault: PlannedFault) -> Result<(), AllocError>
        requires free { planned_in self.old fault.lane fault.serial ≡ Clean }
        requires planned { IsTrue (is_fault fault.planned) }
        ensures ok { OnOk result (self.new ≡ self.old ++ fault ∷ []) }
        ensures err { OnErr result (self.new ≡ self.old) }
    {
        match fault.lane {
            Lane::Outward => insert(&mut self.faults, &mut self.outward, fault),
            Lane::Inward => insert(&mut self.faults, &mut self.inward, fault),
        }
    }
}

/// Adds a fault to the list and to its lane's map, or to neither.
fn insert(
    faults: &mut Vec<PlannedFault>,
    map: &mut BTreeMap<u64, Planned>,
    fault: PlannedFault,
) -> Result<(), AllocError>
    ensures list { OnOk result (faults.new.items ≡ faults.old.items ++ fault ∷ []) }
    ensures map { OnOk result (Updates nat_cmp map.old map.new fault.serial (Some fault.planned)) }
    ensures list_stays { OnErr result (faults.new.items ≡ faults.old.items) }
    ensures map_stays { OnErr result (IsUnchanged map.old map.new) }
{
    faults.push(fault)?;
    if map.insert(fault.serial, fault.planned).is_err() {
        let _ = faults.pop();
        return Err(AllocError);
    }
    Ok(())
}
