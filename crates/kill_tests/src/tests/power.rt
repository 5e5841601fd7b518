//! Servers of which a device's call fails, and that are then killed or lose power: each answered commit is there.

use crate::tests::FLUSH;
use cell_key::Refusal;
use commit_log::new_log;
use power_tests::{
    CachedDevices, CachedFiles, CachedLogFile, CachedMark, Choice, Fate, Fates, open, serve,
};
use server_loop::Config;
use std::alloc::{AllocError, Global};
use std::test::Fail;
use testing::FILE_LIMIT;
use testing::frames::push_frame;
use testing::streams::Pieces;

/// The choice of what is read of each device.
struct AsRead;

impl Choice for AsRead {
    ghost use Rattle.std.specs.Prelude.{false};

    ghost meant = { record { of_file = λ _. false; of_mark = false; of_log = false } };
}

/// The number of a store, and the number of the first record of its log.
const STORE: u64 = 0x0102_0304_0506_0708;

const FIRST: u64 = 1;

/// The limits of a server.
const CONFIG: Config = Config {
    flush: FLUSH,
    file_limit: FILE_LIMIT,
};

/// The requests: each of four sessions begins, sets the cell, and holds, stamps and commits it. There are two
/// checkpoints, after the first and the third one.
const REQUESTS: &[u8] = b"\
    \0\0\0\x01\x01\
    \0\0\0\x18\x03\0\0\0\0\0\0\0\x01\0\0\0\x01r\0\0\0\x01c\0\0\0\x01v\
    \0\0\0\x09\x04\0\0\0\0\0\0\0\x01\
    \0\0\0\x09\x04\0\0\0\0\0\0\0\x01\
    \0\0\0\x09\x04\0\0\0\0\0\0\0\x01\
    \0\0\0\x01\x12\
    \0\0\0\x01\x01\
    \0\0\0\x18\x03\0\0\0\0\0\0\0\x03\0\0\0\x01r\0\0\0\x01c\0\0\0\x01v\
    \0\0\0\x09\x04\0\0\0\0\0\0\0\x03\
    \0\0\0\x09\x04\0\0\0\0\0\0\0\x03\
    \0\0\0\x09\x04\0\0\0\0\0\0\0\x03\
    \0\0\0\x01\x01\
    \0\0\0\x18\x03\0\0\0\0\0\0\0\x05\0\0\0\x01r\0\0\0\x01c\0\0\0\x01v\
    \0\0\0\x09\x04\0\0\0\0\0\0\0\x05\
    \0\0\0\x09\x04\0\0\0\0\0\0\0\x05\
    \0\0\0\x09\x04\0\0\0\0\0\0\0\x05\
    \0\0\0\x01\x12\
    \0\0\0\x01\x01\
    \0\0\0\x18\x03\0\0\0\0\0\0\0\x07\0\0\0\x01r\0\0\0\x01c\0\0\0\x01v\
    \0\0\0\x09\x04\0\0\0\0\0\0\0\x07\
    \0\0\0\x09\x04\0\0\0\0\0\0\0\x07\
    \0\0\0\x09\x04\0\0\0\0\0\0\0\x07";

/// The most bytes that a read gives: one or two requests.
const MOST: usize = 30;

/// An upper bound of the number of calls that a device gets.
const MOST_CALLS: usize = 40;

/// A device.
#[derive(Clone, Copy, PartialEq)]
enum Device {
    Files,
    Mark,
    Log,
}

/// A device's call that fails, after so many others. If `stays`, all later ones fail too, and do nothing.
#[derive(Clone, Copy)]
struct Failure {
    device: Device,
    after: usize,
    fate: Fate,
    stays: bool,
}

/// What follows: maybe an opening after a kill whose call of this device fails, and then a loss of power or a kill.
#[derive(Clone, Copy)]
struct Ending {
    reopens: Option<(Device, Fate)>,
    loses_power: bool,
}

const FATES: [Fate; 5] = [
    Fate::Fails { read: 0, lasts: 0 },
    Fate::Fails { read: 7, lasts: 0 },
    Fate::Fails { read: 0, lasts: 9 },
    Fate::Fails {
        read: 90,
        lasts: 30,
    },
    Fate::Fails {
        read: usize::MAX,
        lasts: usize::MAX,
    },
];

const DEVICES: [Device; 3] = [Device::Files, Device::Mark, Device::Log];

const ENDINGS: [Ending; 5] = [
    Ending {
        reopens: None,
        loses_power: true,
    },
    Ending {
        reopens: None,
        loses_power: false,
    },
    Ending {
        reopens: Some((Device::Files, Fate::Fails { read: 0, lasts: 1 })),
        loses_power: true,
    },
    Ending {
        reopens: Some((Device::Mark, Fate::Fails { read: 0, lasts: 1 })),
        loses_power: true,
    },
    Ending {
        reopens: Some((Device::Log, Fate::Fails { read: 0, lasts: 0 })),
        loses_power: false,
    },
];

/// The fates of a device's calls.
fn fates_of(alloc: Global, failure: &Failure, device: Device) -> Result<Fates, AllocError> {
    let mut left = Vec::new(alloc);
    if failure.device != device {
        return Ok(Fates::new(left));
    }
    if failure.stays {
        for _ in 0..MOST_CALLS {
            left.push(Fate::Fails { read: 0, lasts: 0 })?;
        }
    }
    left.push(failure.fate)?;
    push_good(&mut left, failure.after)?;
    Ok(Fates::new(left))
}

/// Appends so many calls that are made.
fn push_good(left: &mut Vec<Fate>, count: usize) -> Result<(), AllocError> {
    for _ in 0..count {
        left.push(Fate::Works)?;
    }
    Ok(())
}

/// The devices of a new store, with these fates of one of them.
fn new_devices(alloc: Global, failure: &Failure) -> Result<CachedDevices<AsRead>, Refusal> {
    let log = new_log(alloc, STORE, FIRST)?;
    let Some(log) = CachedLogFile::new(log, fates_of(alloc, failure, Device::Log)?) else {
        return Err(Refusal::NoMemory);
    };
    Ok(CachedDevices {
        files: CachedFiles::new(alloc, fates_of(alloc, failure, Device::Files)?),
        marks: CachedMark::new(fates_of(alloc, failure, Device::Mark)?),
        log,
    })
}

/// Sets the fates of the calls to come.
fn set_fates(
    alloc: Global,
    devices: &mut CachedDevices<AsRead>,
    failure: &Failure,
) -> Result<(), AllocError> {
    devices
        .files
        .set_fates(fates_of(alloc, failure, Device::Files)?);
    devices
        .marks
        .set_fates(fates_of(alloc, failure, Device::Mark)?);
    devices
        .log
        .set_fates(fates_of(alloc, failure, Device::Log)?);
    Ok(())
}

/// Raw reads of the records of all commits that the replies answer.
fn reads(alloc: Global, replies: &[u8]) -> Result<Vec<u8>, AllocError> {
    let mut stream = Vec::new(alloc);
    let mut rest = replies;
    for _ in 0..replies.len() {
        let Some((length, after)) = rest.split_first_chunk::<4>() else {
            return Ok(stream);
        };
        let length = u32::from_be_bytes(*length) as usize;
        if let Some(stamp) = after
            .get(..length)
            .unwrap_or_default()
            .strip_prefix(b"\x84\x04")
        {
            let mut body = Vec::from_slice(alloc, b"\x11\0\0\0\x01r\0\0\0\x01c\x03")?;
            body.extend_from_slice(stamp)?;
            body.extend_from_slice(stamp)?;
            push_frame(&mut stream, &body)?;
        }
        rest = after.get(length..).unwrap_or_default();
    }
    Ok(stream)
}

/// Whether each of these replies to raw reads has a record.
fn are_found(replies: &[u8]) -> bool {
    let mut rest = replies;
    for _ in 0..replies.len() {
        let Some((length, after)) = rest.split_first_chunk::<4>() else {
            return rest.is_empty();
        };
        let length = u32::from_be_bytes(*length) as usize;
        if !after.starts_with(b"\x91\x01") {
            return false;
        }
        rest = after.get(length..).unwrap_or_default();
    }
    true
}

/// The replies of a server over the devices, and the devices then.
fn replies(
    alloc: Global,
    devices: CachedDevices<AsRead>,
    stream: &[u8],
) -> Result<(Option<Vec<u8>>, CachedDevices<AsRead>), AllocError> {
    let server = match open(alloc, devices, CONFIG) {
        Ok(server) => server,
        Err((_, devices)) => return Ok((None, devices)),
    };
    let mut reader = Pieces::new(alloc, stream)?;
    reader.most = MOST;
    let mut writer = Vec::new(alloc);
    let (_, devices) = serve(server, &mut reader, &mut writer, u64::MAX);
    Ok((Some(writer), devices))
}

/// The devices as the next opening finds them.
fn ended(
    alloc: Global,
    devices: CachedDevices<AsRead>,
    ending: &Ending,
) -> Result<CachedDevices<AsRead>, Refusal> {
    let mut devices = devices;
    if let Some((device, fate)) = ending.reopens {
        let failure = Failure {
            device,
            after: 0,
            fate,
            stays: false,
        };
        set_fates(alloc, &mut devices, &failure)?;
        let _ = devices.reopen();
    }
    set_fates(alloc, &mut devices, &NO_FAILURE)?;
    if !ending.loses_power {
        devices.reopen()?;
        return Ok(devices);
    }
    match devices.without_power() {
        Some(devices) => Ok(devices),
        None => Err(Refusal::NoMemory),
    }
}

/// No call fails.
const NO_FAILURE: Failure = Failure {
    device: Device::Log,
    after: 0,
    fate: Fate::Works,
    stays: false,
};

/// Whether all commits that were answered are there after the failure and the ending.
fn are_kept(alloc: Global, failure: &Failure, ending: &Ending) -> Result<bool, Refusal> {
    let devices = new_devices(alloc, failure)?;
    let (written, devices) = replies(alloc, devices, REQUESTS)?;
    let asks = reads(alloc, &written.unwrap_or(Vec::new(alloc)))?;
    let devices = ended(alloc, devices, ending)?;
    let (found, _) = replies(alloc, devices, &asks)?;
    let Some(found) = found else {
        return Ok(false);
    };
    Ok(are_found(&found) && found.len() == asks.len() / ASK * FOUND)
}

/// The length of a raw read's frame, and of the reply with a record.
const ASK: usize = 32;

const FOUND: usize = 27;

/// How many trials are made with a device.
const MOST_TRIALS: usize = 140;

/// A trial's call that fails, and what follows.
fn trial_of(device: Device, number: usize) -> (Failure, Ending) {
    let failure = Failure {
        device,
        after: number / 4,
        fate: FATES[number % 5],
        stays: number % 2 == 1,
    };
    (failure, ENDINGS[number / 5 % 5])
}

/// The number of the first trial with a device after which an answered commit is lost.
fn first_lost(alloc: Global, device: Device) -> Result<Option<usize>, Refusal> {
    for number in 0..MOST_TRIALS {
        let (failure, ending) = trial_of(device, number);
        if !are_kept(alloc, &failure, &ending)? {
            return Ok(Some(number));
        }
    }
    Ok(None)
}

#[test]
fn a_call_of_a_device_fails(rt: HostRuntime) -> Result<(), Fail> {
    for device in DEVICES {
        let lost = first_lost(rt.alloc(), device)?;
        assert!(rt; lost.is_none(), "{lost:?}");
    }
    Ok(())
}
