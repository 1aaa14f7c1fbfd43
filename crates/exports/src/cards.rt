// The report of a card for C and Rust.
ghost use Rattle.std.specs.Prelude.{◌≡◌, [], ◌∷◌, length};
ghost use Rattle.card_report.specs.Report.{store_fault, text_answer, text_stored};
ghost use Rattle.card.specs.Printing.{printed};
ghost use Rattle.replies.specs.Texts.{of_text};

use card::report;
use numbers::refusal::code;
use replies::answers;

// Writes what is printed for the bytes of a card, and says how many bytes that is; 7 where the store is under 13,331 bytes.
#[unsafe(no_mangle)]
pub extern "C" fn tanqesha_report(card: &[u8], out: &mut [u8], written: &mut usize) -> u32
    ensures written_after { result ∷ written.new ∷ [] ≡ of_text (text_answer (store_fault (length out.old)) (printed card.now)) written.old }
    ensures out_after { out.new ≡ text_stored (store_fault (length out.old)) (printed card.now) out.old }
{
    let answer = report(card, out);
    code(&answers::put(answer, written))
}
