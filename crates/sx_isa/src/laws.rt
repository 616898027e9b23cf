//! What holds of every instruction, for proofs on words that call nothing. Each law is a function
//! that does nothing: its contract is the law.

ghost use Rattle.std.specs.Prelude.{◌≡◌, ℕ, ◌+◌, ◌*◌, ◌%◌, ◌<◌, List, ◌∷◌, [], ◌++◌, ◌↔◌, length};
ghost use Rattle.sx_isa.specs.Instructions.{IsWord, IsInstruction, IsIllegal, BeginsWith};
ghost use Rattle.sx_isa.specs.Reading.{instruction_at, length_of};
ghost use Rattle.sx_isa.specs.Extending.{extended};
ghost use Rattle.sx_isa.specs.Spelling.{spelling};
ghost use Rattle.sx_isa.specs.Instructions.{first_word};
ghost use Rattle.sx_isa.specs.Standing.{word_at, WordsStand, InstructionStands, AllStand};
ghost use Rattle.sx_isa.specs.Standing.{AreInstructions, words_of};
ghost use Rattle.sx_isa.specs.declared.instruction.Instr.{Instr};

/// No two instructions have the same words, whatever follows them.
pub fn one_spelling()
    ensures { (i j : Instr) → IsInstruction i → IsInstruction j →
        (x y : List ℕ) → spelling i ++ x ≡ spelling j ++ y → i ≡ j }
{}

/// The computing reading finds an instruction exactly where its words come first, and nothing
/// exactly where the first word is illegal.
pub fn reading()
    ensures found { (w0 w1 w2 n : ℕ) (i : Instr) → IsWord w0 → IsWord w1 → IsWord w2 →
        (instruction_at w0 w1 w2 ≡ Some (record { 0 = i; 1 = n }))
        ↔ BeginsWith (w0 ∷ w1 ∷ w2 ∷ []) i n }
    ensures none { (w0 w1 w2 : ℕ) → IsWord w0 → IsWord w1 → IsWord w2 →
        (instruction_at w0 w1 w2 ≡ None) ↔ IsIllegal w0 }
{}

/// The computed length is that of the instructions with this first word, and of the reading
/// whatever follows it.
pub fn lengths()
    ensures found { (w0 n : ℕ) → IsWord w0 →
        (length_of w0 ≡ Some n)
        ↔ ((i : Instr) × IsInstruction i × (first_word i ≡ w0) × (length (spelling i) ≡ n)) }
    ensures none { (w0 : ℕ) → IsWord w0 → (length_of w0 ≡ None) ↔ IsIllegal w0 }
    ensures read { (w0 w1 w2 n : ℕ) →
        (length_of w0 ≡ Some n)
        ↔ ((i : Instr) × (instruction_at w0 w1 w2 ≡ Some (record { 0 = i; 1 = n }))) }
{}

/// Other extension words after a first word change the operands of its instruction alone.
pub fn extending()
    ensures { (w0 v1 v2 w1 w2 n : ℕ) (i : Instr) →
        instruction_at w0 v1 v2 ≡ Some (record { 0 = i; 1 = n }) →
        instruction_at w0 w1 w2 ≡ Some (record { 0 = extended i w1 w2; 1 = n }) }
{}

/// Instructions in memory: an instruction that is there is read there; instructions are where
/// their words do, are put together, may be addressed modulo 65,536, and stay where their words
/// stay.
pub fn standing()
    ensures begins { (bytes : List ℕ) (a : ℕ) (i : Instr) → InstructionStands bytes a i →
        BeginsWith (word_at bytes a ∷ word_at bytes (a + 2) ∷ word_at bytes (a + 4) ∷ [])
        i (length (spelling i)) }
    ensures reads { (bytes : List ℕ) (a : ℕ) (i : Instr) → InstructionStands bytes a i →
        instruction_at (word_at bytes a) (word_at bytes (a + 2)) (word_at bytes (a + 4))
        ≡ Some (record { 0 = i; 1 = length (spelling i) }) }
    ensures words { (bytes : List ℕ) (is : List Instr) (a : ℕ) →
        AllStand bytes a is ↔ (AreInstructions is × WordsStand bytes a (words_of is)) }
    ensures append { (bytes : List ℕ) (is js : List Instr) (a : ℕ) →
        AllStand bytes a (is ++ js)
        ↔ (AllStand bytes a is × AllStand bytes (a + 2 * length (words_of is)) js) }
    ensures modulo { (bytes : List ℕ) (is : List Instr) (a b : ℕ) →
        a % 65536 ≡ b % 65536 → AllStand bytes a is → AllStand bytes b is }
    ensures kept { (m n : List ℕ) (is : List Instr) (a : ℕ) →
        ((k : ℕ) → k < length (words_of is) → word_at m (a + 2 * k) ≡ word_at n (a + 2 * k)) →
        AllStand m a is → AllStand n a is }
{}
