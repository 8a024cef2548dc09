// Resource Manager, Application Information and Date-Time as one resource, and under a quota.
ghost use Rattle.std.specs.Prelude.{◌≡◌, take};
ghost use Rattle.resource.specs.CallEffects.{New};
ghost use Rattle.standard.specs.StandardMeaning.{standard_resources_meaning, standard_under_quota_meaning};

use crate::date_time::DateTime;
use crate::information::Information;
use crate::manager::Manager;
use crate::pair::Pair;
use crate::quota::Quota;
use crate::single::SingleResource;

/// The identifiers of the three resources, one by one and all together.
pub const RESOURCE_MANAGER: u32 = 0x00010041;

pub const APPLICATION_INFORMATION: u32 = 0x00020041;

pub const DATE_TIME: u32 = 0x00240041;

pub const STANDARD_IDENTIFIERS: [u32; 3] = [RESOURCE_MANAGER, APPLICATION_INFORMATION, DATE_TIME];

/// Resource Manager, Application Information and Date-Time, paired in this order.
pub type StandardResources = Pair<
    Pair<SingleResource<Manager>, SingleResource<Information>>,
    SingleResource<DateTime>,
>;

/// The three resources, new. Resource Manager announces the first sixteen of these identifiers (all, if fewer).
pub fn standard_resources(identifiers: &[u32]) -> StandardResources
    ensures made { standard_resources_meaning.made result ≡ ((take 16 identifiers.now, tt), tt) }
    ensures begins { New standard_resources_meaning result }
{
    let manager = Manager::resource(identifiers);
    let named = Pair::new(manager, Information::resource());
    Pair::new(named, DateTime::resource())
}

/// The three resources, new, under a quota of `limit` sessions in a slot, taken as 1 if lower and as 16 if higher.
/// Resource Manager announces the first sixteen of these identifiers (all, if fewer).
pub fn standard_under_quota(limit: u8, identifiers: &[u32]) -> Quota<StandardResources>
    ensures made { standard_under_quota_meaning.made result ≡ (limit, ((take 16 identifiers.now, tt), tt)) }
    ensures begins { New standard_under_quota_meaning result }
{
    Quota::new(limit, standard_resources(identifiers))
}
