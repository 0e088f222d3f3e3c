// The first lines of a snapshot (document 01, 'Trace text'): `set`, `wgt`, `chn` where it stands, and `cnt`, and the head that they give.
ghost use Rattle.std.specs.Prelude.{◌≡◌, ◌≤◌, IfOk, IfErr};
ghost use Rattle.snapshot.specs.Steps.Judge.{counts_read, settings_told};
ghost use Rattle.snapshot.specs.Steps.Runs.{header_told, map_ran, headed_of, head_with, head_by, HeadFew};

use crate::kinds::{chn_line, cnt_line, wgt_line};
use crate::settings::{Set, set_line};
use trcf::head::Preprocessor;
use trcf::transformer::WeightedTransformer;

/// The first bad line of a text, counted from 1.
#[derive(Clone, Copy, Debug, PartialEq, Eq)]
pub struct BadLine {
    pub line: usize,
}

// How many of the first three or four lines hold codes, the place after them, and the head that they give, with no initial values yet.
#[derive(Clone, Copy)]
pub struct Header {
    pub extra: usize,
    pub at: usize,
    pub head: Preprocessor,
}

// The head of the settings, the weights, the codes and the counters.
fn head_with(
    set: Set,
    weights: [f32; 16],
    codes: [u16; 16],
    seen: u64,
    internal: u64,
    count: u64,
) -> Preprocessor
    ensures { result ≡ head_with (settings_told set) weights codes (counts_read seen internal count) }
{
    Preprocessor {
        transformer: WeightedTransformer {
            transform_method: set.method,
            input_length: set.d as usize,
            transform_decay: set.decay,
            weights,
            count,
        },
        forest_mode: set.mode,
        shingle_size: set.k as usize,
        start_normalization: set.start as usize,
        stop_normalization: set.stop as usize,
        weight_time: set.weight_time,
        values_seen: seen as usize,
        internal_timestamp: internal as usize,
        initial_len: 0,
        codes,
    }
}

// The lines of the settings, the weights, the codes and the counters.
pub fn head_lines(text: &[u8]) -> Result<Header, BadLine>
    ensures text_value { header_told result text.now ≡ map_ran headed_of (head_by text.now) }
    ensures head_few { IfOk result (λ header. HeadFew header.head) }
    ensures extra_bound { IfOk result (λ header. header.extra ≤ 1) }
{
    let Some(set) = set_line(text) else {
        return Err(BadLine { line: 1 });
    };
    let d = set.d as usize;
    let mut weights = [0.0f32; 16];
    let Some(p) = wgt_line(text, set.end, set.method, &mut weights[..d]) else {
        return Err(BadLine { line: 2 });
    };
    let third = chn_line(text, p, d);
    let Some(counters) = cnt_line(text, third.at, set.method, set.start as usize) else {
        return Err(BadLine {
            line: 3 + third.extra,
        });
    };
    let head = head_with(
        set,
        weights,
        third.codes,
        counters.seen,
        counters.internal,
        counters.count,
    );
    Ok(Header {
        extra: third.extra,
        at: counters.end,
        head,
    })
}
