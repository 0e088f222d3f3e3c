// An anomaly in lent numbers.
ghost use Rattle.std.specs.Prelude.{◌≡◌};
ghost use Rattle.trcf.specs.Calls.{given};
ghost use Rattle.trcf.specs.View.{anomaly_held, anomaly_time, anomaly_likelihood};
ghost use Rattle.capi.specs.Calls.{flag};

use trcf::head::Anomaly;

// Whether there is one, its time and its likelihood: all 0 where there is none.
pub(crate) fn tell_anomaly(
    anomaly: Option<Anomaly>,
    has_anomaly: &mut u64,
    past_timestamp: &mut u64,
    likelihood: &mut f32,
)
    ensures flag_after { has_anomaly.new ≡ flag (given (anomaly_held anomaly)) }
    ensures time_after { past_timestamp.new ≡ anomaly_time (anomaly_held anomaly) }
    ensures likelihood_after { likelihood.new ≡ anomaly_likelihood (anomaly_held anomaly) }
{
    match anomaly {
        Some(a) => {
            *has_anomaly = 1;
            *past_timestamp = a.past_timestamp;
            *likelihood = a.likelihood;
        }
        None => {
            *has_anomaly = 0;
            *past_timestamp = 0;
            *likelihood = 0.0;
        }
    }
}
