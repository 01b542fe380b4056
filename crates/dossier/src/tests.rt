// Dossiers on a plant with three tanks and two valves: valve 0 pours tank 0 into tank 1, valve 1 takes from tanks 1 and 2 and gives twice to tank 2.
use crate::answer::line;
use crate::faults::DossierFault;
use crate::judging::judge;
use std::alloc::{AllocError, Global};
use std::test::Fail;
use weighing::faults::{QuestionFault, Side, Verdict, WeighingFault};
use words::{PaperFault, WordFault};

const PLANT: &[u8; 24] =
    b"\x10\0\x01\x82\x20\0\0\x01\x20\x41\0\x01\x20\x42\0\x01\x30\x01\0\x01\x30\x42\0\x02";

const SOURCE: &[u8; 12] = b"\xc0\0\0\x02\xc0\x40\0\0\xc0\x80\0\x01";

const TARGET: &[u8; 12] = b"\xd0\0\0\0\xd0\x40\0\0\xd0\x80\0\x03";

const TOTALS: &[u8; 12] = b"\x40\0\0\x01\x50\0\0\x02\x50\x40\0\x02";

// A dossier of the plant.
fn written(
    heap: Global,
    source: &[u8],
    target: &[u8],
    evidence: &[u8],
) -> Result<Vec<u8>, AllocError> {
    let mut dossier = PLANT.to_vec(heap)?;
    dossier.extend_from_slice(source)?;
    dossier.extend_from_slice(target)?;
    dossier.extend_from_slice(evidence)?;
    Ok(dossier)
}

#[test]
fn totals_join(rt: HostRuntime) -> Result<(), Fail> {
    let dossier = written(rt.alloc(), SOURCE, TARGET, TOTALS)?;
    assert_eq!(rt; judge(&dossier), Ok(Verdict::Joined));
    assert_eq!(rt; line(rt.alloc(), &dossier)?.as_str(), "JOINED\n");
    Ok(())
}

// Nothing at all is an empty plant paper; one byte is no word.
#[test]
fn no_words(rt: HostRuntime) -> Result<(), Fail> {
    assert_eq!(rt;
        judge(b""),
        Err(DossierFault::Plant(PaperFault::Words(WordFault::Empty)))
    );
    assert_eq!(rt;
        judge(b"\x10"),
        Err(DossierFault::Input(WordFault::Ragged(0)))
    );
    assert_eq!(rt;
        line(rt.alloc(), b"\x10")?.as_str(),
        "REFUSED 1 AT 0 IN WORDS\n"
    );
    Ok(())
}

// Without a source word all is plant paper, and the source is empty.
#[test]
fn no_source_word(rt: HostRuntime) {
    let fault = WeighingFault::Question(QuestionFault::Length(Side::Source));
    assert_eq!(rt; judge(PLANT), Err(DossierFault::Weighing(fault)));
}

// Bit 20 of a target word comes before its turn.
#[test]
fn bad_target_words(rt: HostRuntime) -> Result<(), Fail> {
    let unnamed = written(rt.alloc(), SOURCE, b"\xd0\0\0\0\xd0\x90\0\0", TOTALS)?;
    assert_eq!(rt;
        judge(&unnamed),
        Err(DossierFault::Target(PaperFault::Unnamed(1)))
    );
    let order = written(rt.alloc(), SOURCE, b"\xd0\0\0\0\xd0\x80\0\0", TOTALS)?;
    assert_eq!(rt;
        judge(&order),
        Err(DossierFault::Target(PaperFault::Order(1)))
    );
    Ok(())
}

// No tank field can say 64.
#[test]
fn source_word_65(rt: HostRuntime) -> Result<(), Fail> {
    let mut source = Vec::new(rt.alloc());
    for tank in 0..65u8 {
        source.extend_from_slice(&[0xc0 | tank % 64 / 4, tank % 4 * 64, 0, 0])?;
    }
    let dossier = written(rt.alloc(), &source, TARGET, TOTALS)?;
    assert_eq!(rt;
        judge(&dossier),
        Err(DossierFault::Source(PaperFault::Order(64)))
    );
    Ok(())
}
