//! How many machines each pool has in each status.
use crate::history::STATUSES;
use crate::listed::Listed;
use hall_types::{Name, Status};
use std::alloc::{AllocError, Global};

/// How many machines a pool has in each status, by the statuses' numbers.
#[derive(Clone, Copy)]
pub struct PoolCounts {
    pub pool: Name,
    pub all: u64,
    pub counts: [u64; STATUSES],
}

impl PoolCounts {
    fn add(&mut self, status: Status) {
        self.all = self.all.saturating_add(1);
        if let Some(count) = self.counts.get_mut(status.number() as usize) {
            *count = u64::saturating_add(*count, 1);
        }
    }
}

/// How many there are of a status.
pub fn count_at(counts: &[u64; STATUSES], status: Status) -> u64 {
    match counts.get(status.number() as usize) {
        Some(count) => *count,
        None => 0,
    }
}

fn add(pools: &mut Vec<PoolCounts>, one: &Listed) -> Result<(), AllocError> {
    let (pool, status) = (one.machine.pool, one.machine.status);
    match pools.binary_search_by(|counts| counts.pool.text().cmp(pool.text())) {
        Ok(place) => {
            if let Some(counts) = pools.get_mut(place) {
                counts.add(status);
            }
        }
        Err(place) => {
            let mut counts = PoolCounts {
                pool,
                all: 0,
                counts: [0; STATUSES],
            };
            counts.add(status);
            pools.insert(place, counts)?;
        }
    }
    Ok(())
}

/// The counts of each pool, by name.
pub fn pools_of(alloc: Global, machines: &[Listed]) -> Result<Vec<PoolCounts>, AllocError> {
    let mut pools = Vec::new(alloc);
    for one in machines {
        add(&mut pools, one)?;
    }
    Ok(pools)
}
