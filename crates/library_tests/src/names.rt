// Names, texts and sets of places.

use std::test::Fail;
use x64_syntax::{
    Abi, AluOp, BuiltIn, CarryOp, Cond, FlagName, Keyword, MachinePlace, Operation, PlaceSet, Reg,
    Sort, Text, TypeWord, XBinOp, Xmm, built_in_named, flag_named, is_export_name, is_name,
    is_reserved, keyword_named, low_named, operation_named, push, push_number, reg_named,
    type_word_named, xmm_named,
};

#[test]
fn keeps_its_bytes(rt: HostRuntime) -> Result<(), Fail> {
    let text = Text::from_slice(rt.alloc(), b"rax")?;
    assert_eq!(rt; text.as_bytes(), b"rax".as_slice());
    assert!(rt; text == Text::from_vec(Vec::from_slice(rt.alloc(), b"rax")?));
    Ok(())
}

#[test]
fn numbers_are_pushed_in_decimal(rt: HostRuntime) -> Result<(), Fail> {
    let mut out = Vec::new(rt.alloc());
    push(&mut out, "n ")?;
    push_number(&mut out, 0u8)?;
    push(&mut out, " ")?;
    push_number(&mut out, u128::MAX)?;
    push(&mut out, " ")?;
    push_number(&mut out, i128::MIN)?;
    assert_eq!(rt;
        out.as_slice(),
        b"n 0 340282366920938463463374607431768211455 -170141183460469231731687303715884105728".as_slice()
    );
    Ok(())
}

#[test]
fn tells_keywords_from_other_names(rt: HostRuntime) {
    assert_eq!(rt; keyword_named(b"inout"), Some(Keyword::InOut));
    assert_eq!(rt; keyword_named(b"step"), Some(Keyword::Step));
    assert_eq!(rt; keyword_named(b"Step"), None);
    assert_eq!(rt; keyword_named(b"steps"), None);
}

#[test]
fn tells_names_from_words_that_are_taken(rt: HostRuntime) {
    for name in ["inc2", "sum", "x", "slotted", "_"] {
        assert!(rt;
            is_name(name.as_bytes()) && !is_reserved(name.as_bytes()),
            "at {name}"
        );
    }
    for name in [
        "procedure",
        "rax",
        "xmm15",
        "cf",
        "Add64",
        "slot3",
        "old",
        "Store32",
        "byteat",
        "clmul",
    ] {
        assert!(rt; is_reserved(name.as_bytes()), "at {name}");
    }
    for name in ["", "2x", "a-b", "a.b"] {
        assert!(rt; !is_name(name.as_bytes()), "at {name}");
    }
    for name in ["add", "RAX", "ret", "L1", "", "R15d", "movzbq", "AESENC"] {
        assert!(rt; !is_export_name(name.as_bytes()), "at {name}");
    }
    assert!(rt; is_export_name(b"gcm_sha_1"));
}

#[test]
fn holds_the_places_of_its_bits(rt: HostRuntime) {
    let set = PlaceSet {
        regs: 0x8001,
        xmms: 2,
        flags: 8,
    };
    assert!(rt; set.contains(MachinePlace::Reg(Reg::Rax)));
    assert!(rt; set.contains(MachinePlace::Reg(Reg::R15)));
    assert!(rt; !set.contains(MachinePlace::Reg(Reg::Rbx)));
    assert!(rt; set.contains(MachinePlace::Xmm(Xmm::Xmm1)));
    assert!(rt; set.contains(MachinePlace::Flag(FlagName::Of)));
    assert!(rt; !set.contains(MachinePlace::Flag(FlagName::Cf)));
    assert!(rt; !PlaceSet::EMPTY.contains(MachinePlace::Reg(Reg::Rax)));
}

#[test]
fn tells_instructions_by_their_names(rt: HostRuntime) {
    for (name, want) in [
        (b"Mov64".as_slice(), Some(Operation::Mov)),
        (b"Cmovae".as_slice(), Some(Operation::Cmov(Cond::Ae))),
        (b"Sbb64".as_slice(), Some(Operation::Alu(AluOp::Sbb))),
        (b"Adox64".as_slice(), Some(Operation::Carry(CarryOp::Adox))),
        (
            b"Punpckhqdq".as_slice(),
            Some(Operation::XBin(XBinOp::Punpckhqdq)),
        ),
        (b"Movq".as_slice(), Some(Operation::XMovq)),
        (b"Movzx8".as_slice(), Some(Operation::Load1)),
        (b"Pclmulqdq".as_slice(), Some(Operation::XClmul)),
        (b"mov64".as_slice(), None),
        (b"Mov".as_slice(), None),
        (b"Cmov".as_slice(), None),
        (b"Add64 ".as_slice(), None),
        (b"".as_slice(), None),
    ] {
        assert_eq!(rt; operation_named(name), want);
    }
}

#[test]
fn tells_other_words_by_their_names(rt: HostRuntime) {
    assert_eq!(rt; built_in_named(b"mulhi"), Some(BuiltIn::Mulhi));
    assert_eq!(rt; built_in_named(b"forall"), Some(BuiltIn::ForAll));
    assert_eq!(rt; built_in_named(b"slot0"), None);
    assert_eq!(rt; type_word_named(b"w128"), Some(TypeWord::Sort(Sort::W128)));
    assert_eq!(rt; type_word_named(b"sysv"), Some(TypeWord::Abi(Abi::Sysv)));
    assert_eq!(rt; type_word_named(b"W64"), None);
    assert_eq!(rt; reg_named(b"r15"), Some(Reg::R15));
    assert_eq!(rt; reg_named(b"r15d"), None);
    assert_eq!(rt; low_named(b"r15d"), Some(Reg::R15));
    assert_eq!(rt; low_named(b"rax"), None);
    assert_eq!(rt; xmm_named(b"xmm16"), None);
    assert_eq!(rt; flag_named(b"flags"), None);
}
