// Whole texts, and the bytes of their answers.
use crate::takes::{all_answers, three_came};
use std::test::Fail;

#[test]
fn a_job_of_each_kind(rt: HostRuntime) -> Result<(), Fail> {
    let board =
        "rule=p\nlevels=2\nmhz=100\nmw=100\nmhz=200\nmw=300\ndevices=0\ncall=admit\nport=1\ncycles=40000\naccess=0\nperiod=1000\ncall=admit\nport=48\ncycles=30000\naccess=0\nperiod=500\ncall=capacity\ncapacity=900\ncall=plan\n";
    let empty = "---------------------------------------------";
    let cases = [
        ("kind=e\n", "120000000", "800", "5", "1-", "0"),
        ("kind=p\n", "300000", "500", "3", "1-", "1"),
        ("kind=b\n", "120000000,300000", "800", "5", "1-", "0"),
    ];
    for (kind, cost, load, states, first, last) in cases {
        let heap = rt.alloc();
        let text = format!(in heap; "{kind}{board}")?;
        let expected = format!(in heap;
            "answer=0\nanswer=0\nanswer=0\nanswer=0\ncost={cost}\nload={load}\nlimit=900\nstates={states}\nlevels={first}{empty}{last}\n"
        )?;
        let answers = all_answers(heap, text.as_bytes())?;
        assert!(rt; answers.as_slice() == expected.as_bytes());
    }
    Ok(())
}

#[test]
fn a_refusal(rt: HostRuntime) -> Result<(), Fail> {
    let text =
        b"kind=e\nrule=s\nlevels=1\nmhz=1\nmw=1\ndevices=0\ncall=clock\ntime=5\ncall=admit\nport=17\ncycles=9\naccess=0\ndeadline=13\n";
    let answers = all_answers(rt.alloc(), text)?;
    assert!(rt; answers.as_slice() == b"answer=0\nanswer=27\nline=9\nport=17\n".as_slice());
    Ok(())
}

#[test]
fn the_rest_of_the_buffer(rt: HostRuntime) {
    let text = b"kind=e\nrule=s\nlevels=1\nmhz=1\nmw=1\ndevices=0\ncall=clock\ntime=5\n";
    let mut answer = [7; 300];
    let _ = three_came(text, [300; 3], &mut answer);
    assert!(rt; &answer[0..9] == b"answer=0\n".as_slice());
    assert!(rt; answer[9..] == [7; 291]);
}
