// A plan, cut while it is stored, and the bank read out behind the cut.
ghost use Rattle.std.specs.Prelude.{◌≡◌};
ghost use Rattle.bank.specs.Refusal.{tested, checked};
ghost use Rattle.bank.specs.ReadOut.{starting};
ghost use Rattle.bank.specs.Calls.{calls_in};
ghost use Rattle.records.specs.Plan.{plan_checks, stores_of};
ghost use Rattle.records.specs.Cut.{cut_bank};
ghost use Rattle.records.specs.CutRun.{bank_behind, read_back, buffer_behind, answers_behind};

use crate::luminaire_write::{LuminaireNumbers, NO_STORES, Plan};
use crate::output::put;
use bank::call_list::{Answer, Call, run};
use bank::{Bank1Layout, ChunkMode, ReadOut, Refusal};
use bus::BANK_LUMINAIRE_INFO;

// Starts a read-out of bank 1 with a length and a mode. A length that is no 16-bit number is refused like any other over
// 256.
fn start(len: usize, mode: ChunkMode) -> Result<ReadOut, Refusal>
    ensures { result ≡ starting 1 len mode }
{
    let len = u16::try_from(len).or(Err(Refusal::ReadOutInvalid))?;
    ReadOut::starting(BANK_LUMINAIRE_INFO, len, mode)
}

// Makes the stores of a plan in a bank, up to a cut.
fn store(plan: Plan, text: &[u8], cut: usize, bank: &mut [u8]) -> Result<(), Refusal>
    ensures answer { result ≡ tested (plan_checks plan text.now) }
    ensures stored { bank.new ≡ checked (plan_checks plan text.now) (λ _. bank.old) (cut_bank (stores_of plan text.now) cut bank.old) }
{
    let count = plan.count(text)?;
    let mut stores = NO_STORES;
    plan.lay(text, &mut stores);
    for store in stores[..count].iter().take(cut) {
        put(bank, store.offset as usize, store.value);
    }
    Ok(())
}

// Plans a write to the bank that is lent, makes its stores up to the cut, and reads the bank out by the calls. What is
// wanted comes as in the claim, which names numbers, field and text.
pub fn read_back(
    mode: ChunkMode,
    numbers: LuminaireNumbers,
    text_field: Option<usize>,
    text: &[u8],
    cut: usize,
    calls: &[Call],
    bank: &mut [u8],
    buffer: &mut [u8],
    answers: &mut [Answer],
) -> Result<ReadOut, Refusal>
    ensures last { result ≡ read_back mode numbers text_field text.now bank.old cut buffer.old (calls_in calls.now) }
    ensures cut { bank.new ≡ bank_behind mode numbers text_field text.now bank.old cut }
    ensures stored { buffer.new ≡ buffer_behind mode numbers text_field text.now bank.old cut buffer.old (calls_in calls.now) }
    ensures answered { answers.new ≡ answers_behind mode numbers text_field text.now bank.old cut buffer.old (calls_in calls.now) answers.old }
{
    let out = start(bank.len(), mode)?;
    let plan = Plan {
        layout: Bank1Layout::from_header(bank),
        numbers,
        text_field,
    };
    store(plan, text, cut, bank)?;
    Ok(run(out, calls, buffer, answers))
}
