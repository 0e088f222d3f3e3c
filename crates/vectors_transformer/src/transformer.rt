// Replays a line of the kind transformer on one transformer, which is carried from line to line beside its statistics.
use ranges::rangevector::RangeVector;
use refusal::{Refusal, row_of};
use trcf::transformer::WeightedTransformer;
use trcf::types::{TransformMethod, method_of_number};
use vectors_core::bounded::Bounded;
use vectors_core::field::Lent;
use vectors_core::fields::{Differs, Fields, expect_untouched};

// How many numbers a list of a line may have, and how many each of the three of a forecast.
const MOST: usize = 40;

const MOST_BOUNDED: usize = 80;

// Before the first `n`, and after a refused one.
fn no_transformer() -> WeightedTransformer {
    WeightedTransformer {
        transform_method: TransformMethod::NONE,
        input_length: 0,
        transform_decay: 0.0,
        weights: [0.0; 16],
        count: 0,
    }
}

// What is carried from line to line.
#[derive(Drop)]
pub(crate) struct Transformed {
    transformer: WeightedTransformer,
    statistics: [f64; 260],
}

impl Transformed {
    pub(crate) fn new() -> Transformed {
        Transformed {
            transformer: no_transformer(),
            statistics: [0.0; 260],
        }
    }

    // The row of a call that gives the next transformer; of a refused one that is `refused`.
    fn take(
        &mut self,
        answer: Result<WeightedTransformer, Refusal>,
        refused: WeightedTransformer,
    ) -> u64 {
        match answer {
            Ok(next) => {
                self.transformer = next;
                0
            }
            Err(refusal) => {
                self.transformer = refused;
                u64::from(refusal)
            }
        }
    }

    fn new_line(&mut self, mut fields: Fields<'_>) -> Result<(), Differs> {
        let method = method_of_number(fields.take_number());
        let d = fields.take_number::<u64>() as usize;
        let decay = fields.take_number();
        let weights = fields.list::<f32, MOST>();
        self.statistics.fill(f64::OLD);
        let answer = WeightedTransformer::new(method, d, decay, &weights, &mut self.statistics);
        let row = self.take(answer, no_transformer());
        fields.expect(row)?;
        if row != 0 {
            expect_untouched(&self.statistics)?;
        }
        fields.finish()
    }

    fn update_line(&mut self, mut fields: Fields<'_>) -> Result<(), Differs> {
        let input = fields.list::<f32, MOST>();
        let previous = fields.list::<f32, MOST>();
        let before = self.transformer;
        let answer = before.update(&mut self.statistics, &input, &previous);
        let row = self.take(answer, before);
        fields.expect(row)?;
        fields.finish()
    }

    // ---- calls that write one list

    // `transform` and `invert`.
    fn input_line(&self, letter: u8, mut fields: Fields<'_>) -> Result<(), Differs> {
        let input = fields.list::<f32, MOST>();
        let previous = fields.list::<f32, MOST>();
        let mut out = fields.lent::<f32, MOST>();
        let t = self.transformer;
        let answer = match letter {
            b't' => t.transform(&self.statistics, &input, &previous, &mut out),
            _ => t.invert(&self.statistics, &input, &previous, &mut out),
        };
        fields.expect_written(row_of(answer), &out)?;
        fields.finish()
    }

    // `scale`, `shift` and `difference_deviations`.
    fn output_line(&self, letter: u8, mut fields: Fields<'_>) -> Result<(), Differs> {
        let mut out = fields.lent::<f32, MOST>();
        let t = self.transformer;
        let answer = match letter {
            b'c' => t.scale(&self.statistics, &mut out),
            b'h' => t.shift(&self.statistics, &mut out),
            _ => t.difference_deviations(&self.statistics, &mut out),
        };
        fields.expect_written(row_of(answer), &out)?;
        fields.finish()
    }

    fn forecast_line(&self, given: Fields<'_>) -> Result<(), Differs> {
        let mut fields = given;
        let mut lists = Bounded::<f32, MOST_BOUNDED>::new();
        lists.read(&mut fields);
        let previous = fields.list::<f32, MOST>();
        let mut range = RangeVector {
            values: &mut lists.values,
            upper: &mut lists.upper,
            lower: &mut lists.lower,
        };
        let answer = self
            .transformer
            .invert_forecast(&self.statistics, &previous, &mut range);
        lists.expect_changed(given, &mut fields, row_of(answer))?;
        fields.finish()
    }

    // ---- lines that are no call

    fn count_line(&mut self, mut fields: Fields<'_>) -> Result<(), Differs> {
        self.transformer.count = fields.take_number();
        fields.finish()
    }

    // What lies past the statistics in use must be as it was before `new`.
    fn state_line(&self, mut fields: Fields<'_>) -> Result<(), Differs> {
        fields.expect(self.transformer.count)?;
        fields.expect_list(&self.statistics)?;
        fields.finish()
    }

    pub(crate) fn replay_line(&mut self, line: &[u8]) -> Result<(), Differs> {
        let (letter, fields) = Fields::of(line);
        match letter {
            b'n' => self.new_line(fields),
            b'u' => self.update_line(fields),
            b't' | b'i' => self.input_line(letter, fields),
            b'f' => self.forecast_line(fields),
            b'c' | b'h' | b'd' => self.output_line(letter, fields),
            b'k' => self.count_line(fields),
            b'q' => self.state_line(fields),
            _ => Err(Differs),
        }
    }
}
