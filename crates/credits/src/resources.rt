//! The Resources of an admitted day.
ghost use Rattle.std.specs.Prelude.{◌≡◌, ◌<◌, length, drop, is_some, IfSome};
ghost use Rattle.std.specs.Iterator.{YieldsFirst, item_count};
ghost use Rattle.std.specs.List.{AllByRecursion};
ghost use Rattle.dayfile.specs.Days.{records};
ghost use Rattle.credits.specs.Resources.{real_time_first, resource_first, of_resource, resources_of, resources_behind, numbered, Kept};
ghost use Rattle.credits.specs.Crediting.{participants_of};
ghost use Rattle.credits.specs.Laws.{LawfulCredits};

use crate::resource::ResourceDay;
use dayfile::{AdmittedDay, Block, RealTimeRecord, Record};

/// The real-time record that is block `k`, if it is one.
fn real_time_at(day: &AdmittedDay<'_>, k: usize) -> Option<RealTimeRecord>
    ensures { result ≡ real_time_first (drop k (records day.now.file.now)) }
{
    match day.record(k) {
        Some(Record::RealTime(real_time)) => Some(real_time),
        _ => None,
    }
}

/// Whether a block is a Resource's.
fn is_resource(block: &Block<'_>) -> bool
    ensures { result ≡ of_resource block.now }
{
    matches!(block, Block::Resource { .. })
}

/// Whether block `k` opens a Resource. It is asked first, since most blocks do not, and no record is read in vain.
fn opens_resource(day: &AdmittedDay<'_>, k: usize) -> bool
    ensures { result ≡ is_some (resource_first k (drop k (records day.now.file.now))) }
{
    day.block(k).is_some_and(|block| is_resource(&block))
}

/// The Resource that block `k` opens, if it opens one.
fn resource_at(day: &AdmittedDay<'_>, k: usize) -> Option<ResourceDay>
    requires { k < 128 }
    ensures value { result ≡ resource_first k (drop k (records day.now.file.now)) }
    ensures kept { IfSome result (Kept (length (participants_of day.now.file.now))) }
{
    if !opens_resource(day, k) {
        return None;
    }
    match day.record(k) {
        Some(Record::Resource(resource)) => Some(ResourceDay {
            block: k,
            resource,
            real_time: real_time_at(day, k + 1),
        }),
        _ => None,
    }
}

/// The Resources of a day, in its order.
#[derive(Drop)]
pub(crate) struct ResourceIter<'d> {
    day: &'d AdmittedDay<'d>,
    block: usize,
}

impl<'d> Iterator for ResourceIter<'d> {
    type Item = ResourceDay;

    ghost next_gives = { YieldsFirst (λ s. resources_behind s.block s.day.now.file.now) };

    ghost remaining = { item_count (λ s. resources_behind s.block s.day.now.file.now) };

    fn next(&mut self) -> Option<ResourceDay> {
        let day = self.day;
        let unit = (self.block..day.blocks()).find_map(|k| resource_at(day, k))?;
        self.block = unit.block + 1;
        Some(unit)
    }
}

/// Goes over the Resources of a day.
pub(crate) fn resources<'d>(day: &'d AdmittedDay<'_>) -> ResourceIter<'d>
    ensures { (result.block ≡ 0) × (result.day.now ≡ day.now) }
{
    ResourceIter { day, block: 0 }
}

/// The Resource of a number, if the day has it.
pub(crate) fn find_resource(day: &AdmittedDay<'_>, number: u32) -> Option<ResourceDay>
    ensures value { result ≡ numbered number (resources_of day.now.file.now) }
    ensures lawful { AllByRecursion LawfulCredits (resources_of day.now.file.now) }
{
    resources(day).find(|unit| unit.number() == number)
}
