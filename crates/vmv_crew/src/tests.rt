ghost use Rattle.std.specs.Prelude.{◌≡◌, ◌<◌, ◌+◌, ◌*◌, ◌^◌};

use crate::{Job, Memory, Open, Outs, Turnstile, fan};
use std::alloc::Global;
use std::sync::atomic::{AtomicBool, AtomicU64, Ordering};
use std::test::Fail;

// Seven, and three more for each place before.
struct Steps;

impl Job for Steps {
    type Out = u64;

    ghost can_run = { λ _ place. place < 2 ^ 32 };

    ghost allows = { λ _ place answer. answer ≡ 3 * place + 7 };

    fn run(&self, _alloc: Global, place: usize) -> Result<u64, Memory> {
        Ok(place as u64 * 3 + 7)
    }
}

#[test]
fn the_answers_are_the_same_for_any_number_of_workers(rt: HostRuntime) -> Result<(), Fail> {
    // the places, and the answers of the first, the middle and the last one
    let table: [(usize, Option<u64>, Option<u64>, Option<u64>); 7] = [
        (0, None, None, None),
        (1, Some(7), Some(7), Some(7)),
        (2, Some(7), Some(10), Some(10)),
        (3, Some(7), Some(10), Some(13)),
        (2_047, Some(7), Some(3_076), Some(6_145)),
        (2_048, Some(7), Some(3_079), Some(6_148)),
        (5_000, Some(7), Some(7_507), Some(15_004)),
    ];
    for (n, first, middle, last) in table {
        for workers in [1u32, 2, 7, 64] {
            let outs = fan(&rt, rt.alloc(), &Steps, n, workers, &Open)?;
            assert_eq!(rt; outs.len(), n, "{workers} workers");
            assert_eq!(rt; outs.get(0).copied(), first);
            assert_eq!(rt; outs.get(n / 2).copied(), middle);
            assert_eq!(rt; outs.as_slice().last().copied(), last);
            let mut want = 7u64;
            for answer in outs.as_slice() {
                assert_eq!(rt; *answer, want, "{n} places, {workers} workers");
                want = want.wrapping_add(3);
            }
        }
    }
    Ok(())
}

// Holds the first place that comes until a second one has, and notes whether it did.
#[derive(Drop)]
struct Meeting {
    came: AtomicU64,
    met: AtomicBool,
}

impl Turnstile for Meeting {
    fn pass(&self, _place: usize) {
        if self.came.fetch_add(1, Ordering::SeqCst) > 0 {
            return;
        }
        for _ in 0..1_000_000_000u32 {
            if self.came.load(Ordering::SeqCst) > 1 {
                self.met.store(true, Ordering::SeqCst);
                return;
            }
        }
    }
}

#[test]
fn two_jobs_run_beside_each_other(rt: HostRuntime) -> Result<(), Fail> {
    let meeting = Meeting {
        came: AtomicU64::new(0),
        met: AtomicBool::new(false),
    };
    let outs = fan(&rt, rt.alloc(), &Steps, 2, 2, &meeting)?;
    assert_eq!(rt; outs.as_slice(), [7u64, 10].as_slice());
    assert!(rt; meeting.met.load(Ordering::SeqCst));
    Ok(())
}

// Counts the places that pass, and keeps the most that were in it at once.
#[derive(Drop)]
struct Crowd {
    passed: AtomicU64,
    inside: AtomicU64,
    most: AtomicU64,
}

impl Turnstile for Crowd {
    fn pass(&self, _place: usize) {
        self.passed.fetch_add(1, Ordering::SeqCst);
        let here = self.inside.fetch_add(1, Ordering::SeqCst).wrapping_add(1);
        for _ in 0..2_000u32 {
            self.most.fetch_max(here, Ordering::SeqCst);
        }
        self.inside.fetch_sub(1, Ordering::SeqCst);
    }
}

#[test]
fn no_more_threads_than_workers_run_at_once(rt: HostRuntime) -> Result<(), Fail> {
    for workers in [1u32, 2, 3] {
        let crowd = Crowd {
            passed: AtomicU64::new(0),
            inside: AtomicU64::new(0),
            most: AtomicU64::new(0),
        };
        let outs = fan(&rt, rt.alloc(), &Steps, 100, workers, &crowd)?;
        assert_eq!(rt; outs.len(), 100);
        assert_eq!(rt; crowd.passed.load(Ordering::SeqCst), 100);
        assert!(rt; crowd.most.load(Ordering::SeqCst) <= u64::from(workers));
    }
    Ok(())
}

#[test]
fn each_place_passes_the_turnstile(rt: HostRuntime) -> Result<(), Fail> {
    let crowd = Crowd {
        passed: AtomicU64::new(0),
        inside: AtomicU64::new(0),
        most: AtomicU64::new(0),
    };
    let outs = fan(&rt, rt.alloc(), &Steps, 2_048, 1, &crowd)?;
    assert_eq!(rt; crowd.passed.load(Ordering::SeqCst), 2_048);
    let list = outs.into_vec();
    assert_eq!(rt; list.len(), 2_048);
    assert_eq!(rt; Outs::from_vec(list).len(), 2_048);
    Ok(())
}
