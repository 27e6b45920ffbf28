//! What holds of the reading of every file that has one entry on a line.

ghost use Rattle.std.specs.Prelude.{◌≡◌, ◌↔◌, ◌⊎◌, ℕ, List, Ok, Err};
ghost use Rattle.ll_lines.specs.declared.fault.ReadFault.{ReadFault as Fault};
ghost use Rattle.ll_lines.specs.Reading.{Format, IsGood, IsBad};
ghost use Rattle.ll_lines.specs.LineByLine.{reading};

/// Reading line after line meets the entries of a file exactly where no line has a fault, and else
/// the first fault of the first faulty line. Every file is one of the two, and none is both. This holds of
/// every format.
pub fn every_file_is_good_or_bad<Entry>()
    ensures good { (format : Format Entry) (bytes : List ℕ) (entries : List Entry)
        → IsGood format bytes entries ↔ (reading format bytes ≡ Ok entries) }
    ensures bad { (format : Format Entry) (bytes : List ℕ) (fault : Fault)
        → IsBad format bytes fault ↔ (reading format bytes ≡ Err fault) }
    ensures either { (format : Format Entry) (bytes : List ℕ)
        → ((entries : List Entry) × IsGood format bytes entries)
        ⊎ ((fault : Fault) × IsBad format bytes fault) }
    ensures not_both { (format : Format Entry) (bytes : List ℕ) (entries : List Entry)
        (fault : Fault) → IsGood format bytes entries → IsBad format bytes fault → ⊥ }
{}
