use crate::cases::{End, ends, plain};
use dill_base::Status;
use std::process::Abort;
use std::test::Fail;

/// Runs a script that ends well, and compares what it prints. Where the summary says `lacks=0`, no call wanted memory.
fn shows(rt: &(impl Abort + AllocGlobal), script: &[u8], shown: &str) -> Result<(), Fail> {
    let end = End {
        status: Status::Well,
        shown,
        said: "",
    };
    ends(rt, "x", plain(script), end)
}

#[test]
fn two_thousand_coroutines_live_at_once_and_none_wants_memory(rt: HostRuntime) -> Result<(), Fail> {
    shows(
        &rt,
        b"dill 1\nprogram sleeper 0\nmsleep 50\nend\nprogram main 0\nn0 = bundle\nloop 2000\n\
          bundle_go n0 sleeper\nend\nbundle_wait n0 -1\nend\n",
        "summary status=0 errno=none turns=8002 rounds=126 closing=0 made=1 gone=1 lacks=0\n",
    )
}

#[test]
fn the_handle_beyond_65536_is_refused_and_none_before_it(rt: HostRuntime) -> Result<(), Fail> {
    shows(
        &rt,
        b"dill 1\nprogram main 0\nloop 65536\nhmake 256 0\nend\ntry hmake 256 0\nif err EMFILE\n\
          print \"full\"\nend\nend\n",
        "full\nsummary status=0 errno=none turns=131074 rounds=2049 closing=0 made=65536 gone=65536 lacks=0\n",
    )
}

/// A failed one draws no number.
#[test]
fn a_channel_takes_two_handles(rt: HostRuntime) -> Result<(), Fail> {
    shows(
        &rt,
        b"dill 1\nprogram main 0\nloop 65535\nn0 = hmake 256 0\nend\ntry n1 n2 = chmake\nif err EMFILE\n\
          hclose n0\nn1 n2 = chmake\nprint n2\nend\nend\n",
        "65537\nsummary status=0 errno=none turns=131074 rounds=2049 closing=0 made=65537 gone=65537 lacks=0\n",
    )
}

#[test]
fn an_item_of_1048576_bytes_is_handed_over(rt: HostRuntime) -> Result<(), Fail> {
    shows(
        &rt,
        b"dill 1\nprogram s 1\nset b0 \"a\"\nloop 20\njoin b0 b0\nend\nchsend n0 b0 -1\nend\nprogram main 0\n\
          n0 n1 = chmake\nn2 = go s n0\nb0 = chrecv n1 1048576 -1\nlen n3 b0\nprint n3\nbundle_wait n2 -1\nend\n",
        "1048576\nsummary status=0 errno=none turns=48 rounds=1 closing=0 made=3 gone=3 lacks=0\n",
    )
}

#[test]
fn five_hundred_wait_at_one_end_and_none_wants_memory(rt: HostRuntime) -> Result<(), Fail> {
    shows(
        &rt,
        b"dill 1\nprogram r 1\nchrecv n0 1 -1\nend\nprogram main 0\nn0 n1 = chmake\nn2 = bundle\nloop 500\n\
          bundle_go n2 r n1\nend\nloop 500\nchsend n0 \"x\" -1\nend\nbundle_wait n2 -1\nend\n",
        "summary status=0 errno=none turns=3002 rounds=47 closing=0 made=3 gone=3 lacks=0\n",
    )
}

/// What a coroutine may wait in at channels is given back when it is gone.
#[test]
fn three_hundred_choose_one_after_the_other(rt: HostRuntime) -> Result<(), Fail> {
    shows(
        &rt,
        b"dill 1\nprogram r 1\nchoose -1 recv n0 1 send n0 \"y\"\nend\nprogram main 0\nn0 n1 = chmake\n\
          loop 300\nn2 = go r n1\nchsend n0 \"x\" -1\nhclose n2\nend\nend\n",
        "summary status=0 errno=none turns=1801 rounds=29 closing=0 made=302 gone=302 lacks=0\n",
    )
}

#[test]
fn a_join_gives_1048576_bytes_and_is_refused_one_more(rt: HostRuntime) -> Result<(), Fail> {
    shows(
        &rt,
        b"dill 1\nprogram main 0\nset b0 \"a\"\nloop 20\njoin b0 b0\nend\ntry join b0 \"b\"\n\
          if err EMSGSIZE\nlen n0 b0\nprint n0\nend\nend\n",
        "1048576\nsummary status=0 errno=none turns=43 rounds=1 closing=0 made=0 gone=0 lacks=0\n",
    )
}

#[test]
fn a_text_of_1048576_bytes_is_printed_whole(rt: HostRuntime) -> Result<(), Fail> {
    let mut shown = String::new(rt.alloc());
    for _piece in 0..65_536u32 {
        shown.push_str("aaaaaaaaaaaaaaaa")?;
    }
    shown.push_str(
        "\nsummary status=0 errno=none turns=42 rounds=1 closing=0 made=0 gone=0 lacks=0\n",
    )?;
    shows(
        &rt,
        b"dill 1\nprogram main 0\nset b0 \"a\"\nloop 20\njoin b0 b0\nend\nprint b0\nend\n",
        shown.as_str(),
    )
}
