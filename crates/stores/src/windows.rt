// Windows: what gives way, what stays, what is refused.
use codes::refusal::Refusal;
use replay::store::ReplayStore;
use std::alloc::{AllocError, Global};
use std::test::Fail;
use window::window::Window;

// The length of the packet that a window holds under a number.
fn held(window: &Window<'_>, number: u32) -> Option<usize> {
    let mut buffer = [0u8; 8192];
    window.fetch(number, &mut buffer).ok().flatten()
}

// What a window on subscription 11 answers to a packet, a refusal by its returned number.
fn kept(window: &mut Window<'_>, packet: &[u8]) -> Result<(), u8> {
    window.keep(packet).map_err(Refusal::number)
}

// Over 3 cells, of 5 packets the last three are held.
#[test]
fn last_three(rt: HostRuntime) {
    let mut area = [0u8; 24_576];
    assert!(rt; Window::check(&area).is_ok());
    let mut window = Window::over(&mut area, 11);
    for number in 1u8..6 {
        assert_eq!(rt;
            kept(&mut window, &[0, 8, b'M', 11, 0, 0, 0, number]),
            Ok(())
        );
    }
    // a number that is held stays as it is, and no younger for it
    assert_eq!(rt; kept(&mut window, &[0, 9, b'M', 11, 0, 0, 0, 3, 0]), Ok(()));
    for (number, expected) in [
        (1u32, None),
        (2, None),
        (3, Some(8usize)),
        (4, Some(8)),
        (5, Some(8)),
    ] {
        assert_eq!(rt; held(&window, number), expected);
    }
    assert_eq!(rt; kept(&mut window, &[0, 9, b'M', 11, 0, 0, 0, 6, 0]), Ok(()));
    for (number, expected) in [(3u32, None), (4, Some(8usize)), (6, Some(9))] {
        assert_eq!(rt; held(&window, number), expected);
    }
}

// The uppermost row decides; a heartbeat is refused for its type and not for its number.
#[test]
fn refused(rt: HostRuntime) {
    let table = [
        ([0u8, 9, b'X', 12, 255, 255, 255, 255], Err(1u8)),
        ([0, 8, b'X', 12, 255, 255, 255, 255], Err(2)),
        ([0, 8, b'X', 11, 255, 255, 255, 255], Err(3)),
        ([0, 8, b'B', 11, 255, 255, 255, 255], Err(3)),
        ([0, 8, b'B', 11, 0, 0, 0, 1], Err(3)),
        ([0, 8, b'M', 11, 255, 255, 255, 255], Err(4)),
        ([0, 8, b'M', 11, 0, 0, 0, 0], Err(4)),
        ([0, 8, b'M', 11, 255, 255, 255, 254], Ok(())),
    ];
    let mut area = [0u8; 8192];
    let mut window = Window::over(&mut area, 11);
    for (packet, expected) in table {
        assert_eq!(rt; kept(&mut window, &packet), expected);
    }
    assert_eq!(rt; held(&window, 4_294_967_294), Some(8));
}

// Whether an area of a length will do.
fn fits(heap: Global, length: usize) -> Result<bool, AllocError> {
    let area = vec![in heap; 0u8; length]?;
    Ok(Window::check(area.as_slice()).is_ok())
}

// 1 to 64 cells and nothing more.
#[test]
fn areas(rt: HostRuntime) -> Result<(), Fail> {
    let table = [
        (0usize, false),
        (8191, false),
        (8192, true),
        (8193, false),
        (524_288, true),
        (532_480, false),
    ];
    for (length, expected) in table {
        assert_eq!(rt; fits(rt.alloc(), length)?, expected);
    }
    Ok(())
}
