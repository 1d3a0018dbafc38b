//! What no clause says: that a course, a document and a picture go through where memory is ample. The expected
//! numbers follow from the rules: of four lines of which the third asks for an unloading, the run
//! turns at position 2 and is half-way at position (2 + 4) / 2 = 3; line j of n falls into column
//! j * 512 / n, cut off, where n is more than 512.
use super::same;
use ms_base::{Kind, Refusal, Reply, Settings, Step};
use ms_course::{
    Asked, Birth, Columns, Course, Extent, LoaderThen, Moment, Reason, Refused, Schedule, Standing,
    Stretch, column_for,
};
use ms_json::Document;
use ms_loaders::{Answer, System};
use ms_page::{ClassCase, CommittedCase, LoaderCase, Picture, RefusedCase};
use std::alloc::{AllocError, Global};
use std::process::Abort;

/// A metaspace with so many committed words and loaders.
fn stands(committed: u64, loaders: u64) -> Standing {
    Standing {
        both: Extent {
            reserved: 1_048_576,
            committed,
            used: 0,
            live: 0,
        },
        class_space: Extent::NONE,
        loaders,
    }
}

/// The moment of a step.
fn moment(line: u32, step: Step, reply: Reply, standing: Standing) -> Moment {
    Moment {
        line,
        asked: Asked::Step(step),
        reply,
        standing,
    }
}

/// A loader comes, a block is past the limit, the loader goes, and another comes. Each second line
/// of the trace is blank.
fn moments() -> [Moment; 4] {
    let block = Step::Alloc {
        loader: 7,
        block: 1,
        words: 10,
    };
    let limit = Refusal::CommitLimit {
        committed: 3,
        limit: 3,
        need: 1,
    };
    let first = Step::New {
        loader: 7,
        kind: Kind::Standard,
    };
    let second = Step::New {
        loader: 8,
        kind: Kind::Hidden,
    };
    [
        moment(1, first, Reply::Ok, stands(0, 1)),
        moment(3, block, Reply::Refused(limit), stands(24_576, 1)),
        moment(5, Step::Unload { loader: 7 }, Reply::Ok, stands(8192, 0)),
        moment(7, second, Reply::Ok, stands(0, 1)),
    ]
}

/// The course of the four, and whether it was half-way before each.
fn course(alloc: Global) -> Result<(Course, [bool; 4]), AllocError> {
    let [first, second, third, fourth] = moments();
    let mut course = Course::new(alloc, Schedule::new(4, Some(2)))?;
    let one = course.is_halfway();
    course.push(&first)?;
    let two = course.is_halfway();
    course.push(&second)?;
    let three = course.is_halfway();
    course.push(&third)?;
    let four = course.is_halfway();
    let mut then = Vec::new(alloc);
    then.push(THEN)?;
    course.keep_halfway(then);
    course.push(&fourth)?;
    Ok((course, [one, two, three, four]))
}

/// A loader half-way.
const THEN: LoaderThen = LoaderThen {
    name: 9,
    kind: Kind::Boot,
    live: 5,
};

#[test]
fn a_course_gathers_four_lines(rt: HostRuntime) {
    let (course, halves) = course(rt.alloc()).expect(&rt, "memory is ample");
    let schedule = course.schedule();
    let refused = [
        course.refused(Reason::CommitLimit),
        course.refused(Reason::ReserveLimit),
    ];
    let stretches = [course.before_half(), course.after_half()];
    let births = [course.birth(7), course.birth(8)];
    let then = course.halfway().first().copied();
    let answered = course.columns().answered();
    let committed = committed_in(course.columns());
    drop(course);
    same(&rt, &halves, &[false, false, false, true]);
    same(
        &rt,
        &schedule,
        &Schedule {
            lines: 4,
            turn: 2,
            half: 3,
        },
    );
    let once = Refused {
        lines: 1,
        first_line: 3,
    };
    same(&rt, &refused, &[once, Refused::NONE]);
    let quiet = Stretch {
        first_line: 5,
        fewest: Some(0),
    };
    let late = Stretch {
        first_line: 7,
        fewest: Some(1),
    };
    same(&rt, &stretches, &[quiet, late]);
    let born = Birth {
        position: 3,
        line: 7,
    };
    same(&rt, &births, &[None, Some(born)]);
    same(&rt, &then, &Some(THEN));
    same(&rt, &answered, &4);
    same(&rt, &committed, &[0, 24_576, 8192, 0]);
}

/// The most committed words of the first four columns.
fn committed_in(columns: &Columns) -> [u64; 4] {
    let mut words = [0; 4];
    for (kept, column) in words.iter_mut().zip(columns.columns()) {
        *kept = column.most.both.committed;
    }
    words
}

#[test]
fn lines_past_512_share_columns(rt: HostRuntime) {
    let indices = [
        column_for(0, 1024),
        column_for(1, 1024),
        column_for(2, 1024),
        column_for(1023, 1024),
        column_for(511, 512),
    ];
    let mut columns = Columns::new(rt.alloc(), 513).expect(&rt, "memory is ample");
    let [first, second, _, _] = moments();
    columns.push(&first);
    columns.push(&second);
    let shared = columns.columns().first().copied();
    let count = columns.columns().len();
    drop(columns);
    same(&rt, &indices, &[0, 0, 1, 511, 511]);
    same(&rt, &count, &512);
    let shared = shared.expect(&rt, "no column");
    let told = [
        shared.lines,
        shared.first_line,
        shared.last_line,
        shared.refusals,
    ];
    same(&rt, &told, &[2, 1, 3, 1]);
}

/// The document of a run of one line without loaders, over the columns of one moment.
fn document(alloc: Global) -> Result<String, AllocError> {
    let [first, _, _, _] = moments();
    let mut columns = Columns::new(alloc, 1)?;
    columns.push(&first);
    let mut document = Document::new(alloc, String::new(alloc), false)?;
    document.push(&Answer {
        line: 1,
        reply: Reply::Ok,
        report: None,
    })?;
    let system = System::new(alloc, Settings::DEFAULT)?;
    let end = system.totals()?;
    drop(system);
    let settings = Settings::DEFAULT;
    let text = document.finish(alloc, &settings, 1, columns.columns(), &end, &[])?;
    drop(columns);
    drop(end);
    Ok(text)
}

/// How it begins and ends.
const BEGINS: &str =
    "{\"answers\":[[1,1,\"ok\"]],\"command lines\":1,\"course\":{\"class committed\":[0],";

const ENDS: &str = "\"workers\":1},\"word bytes\":8}\n";

#[test]
fn a_document_of_one_line_is_written(rt: HostRuntime) {
    let text = document(rt.alloc()).expect(&rt, "memory is ample");
    let begins = text.starts_with(BEGINS);
    let ends = text.ends_with(ENDS);
    drop(text);
    same(&rt, &(begins, ends), &(true, true));
}

/// The picture of the course of four lines, at whose end there is nothing.
fn picture(alloc: Global) -> Result<Picture, AllocError> {
    let (course, _) = course(alloc)?;
    let system = System::new(alloc, Settings::DEFAULT)?;
    let end = system.totals()?;
    drop(system);
    let picture = Picture::new(alloc, &Settings::DEFAULT, &course, &end)?;
    drop(course);
    drop(end);
    Ok(picture)
}

#[test]
fn a_picture_shows_a_course(rt: HostRuntime) {
    let picture = picture(rt.alloc()).expect(&rt, "memory is ample");
    let listed = [
        picture.loaders.len(),
        picture.largest.len(),
        picture.stays.len(),
    ];
    let peaks = picture.peaks;
    let [boot, standard, _, _] = picture.kinds;
    let then = [
        boot.loaders_then,
        boot.live_then,
        standard.loaders_then,
        standard.live_then,
    ];
    let tiles = picture.tiles;
    drop(picture);
    same(&rt, &listed, &[0, 0, 4]);
    same(&rt, &peaks, &stands(24_576, 1));
    same(&rt, &then, &[1, 5, 0, 0]);
    same(&rt, &tiles.committed, &CommittedCase::Refused);
    same(&rt, &tiles.class_space, &ClassCase::Unwanted);
    same(&rt, &tiles.loaders, &LoaderCase::Rising);
    same(&rt, &tiles.refused, &RefusedCase::Wants);
}
