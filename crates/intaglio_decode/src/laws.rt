//! What holds of encoded outputs and of what they are decoded to.
//!
//! The functions do nothing: the contract of each is a law.
ghost use Rattle.intaglio_decode.specs.Laws.{FaultsAreExact, IsReadInOneWay, DecodingIsAFunction, EncodingIsAFunction, DecodingGivesFirstSpellings, DecodingGivesInput, EncodingKeepsInput, DecodingKeepsKeys, EncodingIsInOrder, EncodingGivesBytes};

/// Bytes have no fault exactly if they are well formed: symbols in decimal, an empty line, and strings, each
/// line ended and each symbol the number of a string.
#[tactic(auto, using(crate::proofs::AllLaws::faults_are_exact))]
pub fn faults_are_exact()
    ensures { FaultsAreExact }
{}

/// Bytes are well formed in at most one way.
#[tactic(auto, using(crate::proofs::AllLaws::bytes_are_read_in_one_way))]
pub fn bytes_are_read_in_one_way()
    ensures { IsReadInOneWay }
{}

/// What bytes are decoded to is a function of the bytes.
pub fn decoding_is_a_function()
    ensures { DecodingIsAFunction }
{}

/// What is written for an input is a function of the input and the kind: two runs that succeed write the
/// same, whatever was written before, and whatever tables and hashers they use.
pub fn encoding_is_a_function()
    ensures { EncodingIsAFunction }
{}

/// Decoding an encoded input gives each of its lines in the spelling of the first line that is equal to it,
/// each followed by byte 10.
#[tactic(auto, using(crate::proofs::AllLaws::decoding_gives_first_spellings))]
pub fn decoding_gives_first_spellings()
    ensures { DecodingGivesFirstSpellings }
{}

/// For each kind but paths, decoding an encoded input gives the input, its last line ended.
#[tactic(auto, using(crate::proofs::AllLaws::decoding_gives_the_input))]
pub fn decoding_gives_the_input()
    ensures { DecodingGivesInput }
{}

/// For each kind but paths, inputs with the same encoding are the same, their last lines ended.
#[tactic(auto, using(crate::proofs::AllLaws::encoding_keeps_the_input))]
pub fn encoding_keeps_the_input()
    ensures { EncodingKeepsInput }
{}

/// Decoding an encoded input gives as many lines with the same keys: for paths, the same components.
#[tactic(auto, using(crate::proofs::AllLaws::decoding_keeps_keys))]
pub fn decoding_keeps_keys()
    ensures { DecodingKeepsKeys }
{}

/// An encoded output is well formed, its symbols are issued in order, and no two of its strings are
/// equal.
#[tactic(auto, using(crate::proofs::AllLaws::encoding_is_in_order))]
pub fn encoding_is_in_order()
    ensures { EncodingIsInOrder }
{}

/// Encoding what well-formed bytes are decoded to gives those bytes, if their symbols are issued in order and
/// no two of their strings are equal.
pub fn encoding_gives_the_bytes()
    ensures { EncodingGivesBytes }
{}
