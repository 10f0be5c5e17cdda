//! What a host keeps at its start.

ghost use Rattle.std.specs.Prelude.{◌≡◌, List, replicate, IfOk};
ghost use Rattle.facet_list.specs.Store.{Write};
ghost use Rattle.facet_list.specs.Rows.{rows_of};
ghost use Rattle.host_rules.specs.States.{start};
ghost use Rattle.trapeze_host.specs.Keeping.{Keeps, IsSound, AreCounted};

use crate::kept::Kept;
use crate::lent::Lent;
use crate::requests::Requests;
use facet_list::Facets;
use label_queues::Queues;
use std::alloc::Global;
use trapeze_io::NoMemory;

/// So many zeros.
fn zeros(alloc: Global, count: usize) -> Result<Vec<u64>, NoMemory>
    ensures { IfOk result (λ zeros. zeros.items ≡ replicate count 0) }
{
    match vec![in alloc; 0u64; count] {
        Ok(zeros) => Ok(zeros),
        Err(_) => Err(NoMemory),
    }
}

impl<F: Facets> Kept<F> {
    /// No activation, no turn and no request.
    pub(crate) fn start(alloc: Global, lent: &Lent, facets: F) -> Result<Kept<F>, NoMemory>
        requires { F.limits facets ≡ lent.now.policy.limits }
        ensures starts { IfOk result (λ kept. (w : List Write) → F.rows facets ≡ rows_of w → Keeps F.rows lent.now kept (start w)) }
        ensures sound { IfOk result (IsSound F.limits lent.now) }
        ensures counted { IfOk result (AreCounted 0) }
    {
        let limits = lent.policy().limits();
        let Ok(queues) = Queues::new(alloc, limits) else {
            return Err(NoMemory);
        };
        let Ok(turns) = zeros(alloc, limits.len()) else {
            return Err(NoMemory);
        };
        let Ok(requests) = Requests::new(alloc, limits.len()) else {
            return Err(NoMemory);
        };
        Ok(Kept {
            facets,
            queues,
            turns,
            requests,
            alloc,
        })
    }
}
