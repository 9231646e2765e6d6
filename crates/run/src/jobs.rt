// The jobs of a run, and what makes their arrival legal (RULES 9).
ghost use Rattle.std.specs.Prelude.{ℕ, suc, ◌+◌, ◌^◌, ◌≤◌, ◌<◌, not, ◌&&◌, ◌||◌, List, map, ◌≡◌, pos, ◌+ℤ◌, leb, eqb, length, get_or, drop};
ghost use Rattle.std.specs.Int.Signed.{le_z};
ghost use Rattle.budget.specs.declared.task.Task.{Task};
ghost use Rattle.budget.specs.Task.{T, C, J};
ghost use Rattle.run.specs.inner.Columns.{OneLength, Timely, job_in, jobs_in};
ghost use Rattle.run.specs.Job.{from_zero, task_of, deadline, in_order, valid_job, before_all, legal_arrival, no_job};
ghost use Rattle.run.specs.Walk.{released_before, valid_jobs};

use budget::task::Task;

// The most jobs that a walk takes.
pub const MOST: usize = 1_024;

// The jobs of a run, as the columns of their tasks' numbers, their releases, their readiness slots and their works. RULES 9 gives them as four rows; rows
// of unequal lengths are refused with 12, so that one length is an invariant of `Aligned` and not of this.
#[derive(Clone, Copy)]
pub struct Jobs<'a> {
    pub tasks: &'a [u32],
    pub releases: &'a [i32],
    pub ready: &'a [u32],
    pub works: &'a [u32],
}

// Jobs whose columns are of one length, so that each place has a job.
#[derive(Clone, Copy)]
pub(crate) struct Aligned<'a> {
    pub jobs: Jobs<'a>,
    pub ghost even: { OneLength jobs },
}

// One job; its release may lie before slot 0.
#[derive(Clone, Copy)]
struct Job {
    task: u32,
    release: i32,
    ready: u32,
    work: u32,
}

impl Job {
    // Whether it becomes ready in its release slot or at most `lateness` slots later.
    fn is_ready_in_time(self, lateness: u32) -> bool
        ensures { result ≡ (le_z self.release (pos self.ready) && le_z (pos self.ready) (self.release +ℤ pos lateness)) }
    {
        let release = i64::from(self.release);
        let ready = i64::from(self.ready);
        release <= ready && ready <= release + i64::from(lateness)
    }

    // Whether its work is 1 to the task's, and it becomes ready in time.
    fn is_within(self, task: &Task) -> bool
        ensures { result ≡ ((leb 1 self.work && leb self.work (C task.now)) && (le_z self.release (pos self.ready) && le_z (pos self.ready) (self.release +ℤ pos (J task.now)))) }
    {
        1 <= self.work && self.work <= task.work.0 && self.is_ready_in_time(task.lateness.0)
    }

    // Whether a later job is sorted behind it: by release, and those of one release by task.
    #[tactic(auto, unfolding(crate::specs::Job::in_order))]
    fn is_in_order(self, later: Job) -> bool
        ensures { result ≡ in_order (job_in self) (job_in later) }
    {
        self.release < later.release || (self.release == later.release && self.task <= later.task)
    }

    // Whether a later job of the same task keeps its distance, the task's period.
    fn is_apart(self, later: Job, period: u32) -> bool
        ensures { result ≡ (not (eqb self.task later.task) || le_z (self.release +ℤ pos period) later.release) }
    {
        self.task != later.task
            || i64::from(self.release) + i64::from(period) <= i64::from(later.release)
    }

    // Whether a later job is sorted behind it and, if it is of the same task, keeps its distance.
    fn is_before(self, later: Job, period: u32) -> bool
        ensures { result ≡ (in_order (job_in self) (job_in later) && (not (eqb self.task later.task) || le_z (self.release +ℤ pos period) later.release)) }
    {
        self.is_in_order(later) && self.is_apart(later, period)
    }

    // Its deadline, so many slots after its release, where that lies behind slot 0.
    fn deadline(self, slots: u32) -> u32
        requires { (0 < from_zero (self.release +ℤ pos slots)) × (from_zero (self.release +ℤ pos slots) < 2 ^ 31) }
        ensures { result ≡ from_zero (self.release +ℤ pos slots) }
    {
        (i64::from(self.release) + i64::from(slots)) as u32
    }
}

impl Jobs<'_> {
    // Whether each job is released before the trace ends.
    fn is_released_before(&self, end: usize) -> bool
        ensures { result ≡ released_before end self.now.releases.now }
    {
        self.releases
            .iter()
            .all(|&release| release < 0 || (release as usize) < end)
    }

    // Whether the jobs keep the rules of the run, on a trace that ends at that instant.
    #[tactic(auto, unfolding(crate::specs::Walk::valid_jobs))]
    pub(crate) fn is_valid(&self, table: &[Task], end: usize) -> bool
        ensures { result ≡ valid_jobs table.now self.now.tasks.now self.now.releases.now self.now.ready.now self.now.works.now end }
    {
        let count = self.tasks.len();
        self.releases.len() == count
            && self.ready.len() == count
            && self.works.len() == count
            && count <= MOST
            && self.is_released_before(end)
            && Aligned { jobs: *self }.is_legal(table)
    }
}

impl Aligned<'_> {
    // The job at place i.
    fn at(&self, i: usize) -> Job
        requires { i < length self.now.jobs.tasks.now }
        ensures { get_or (jobs_in self.now.jobs) i no_job ≡ job_in result }
    {
        Job {
            task: self.jobs.tasks[i],
            release: self.jobs.releases[i],
            ready: self.jobs.ready[i],
            work: self.jobs.works[i],
        }
    }

    // Whether the job at place i, of a task with that period, and every job after it are in order and apart.
    fn is_before_rest(&self, i: usize, period: u32) -> bool
        requires { i < length self.now.jobs.tasks.now }
        ensures { (ks : List Task) → T (task_of ks (get_or (jobs_in self.now.jobs) i no_job)) ≡ period → result ≡ before_all ks (get_or (jobs_in self.now.jobs) i no_job) (drop (suc i) (jobs_in self.now.jobs)) }
    {
        let job = self.at(i);
        // By place, since a job is four columns' numbers there.
        (i + 1..self.jobs.tasks.len()).all(|k| job.is_before(self.at(k), period))
    }

    // Whether the job at place i keeps the rules: its task is there, its work is 1 to C, it is ready in time, and the jobs after it are in order
    // and apart.
    fn is_legal_at(&self, table: &[Task], i: usize) -> bool
        requires { i < length self.now.jobs.tasks.now }
        ensures { result ≡ (valid_job table.now (get_or (jobs_in self.now.jobs) i no_job) && before_all table.now (get_or (jobs_in self.now.jobs) i no_job) (drop (suc i) (jobs_in self.now.jobs))) }
    {
        let job = self.at(i);
        match table.get(job.task as usize) {
            Some(task) => job.is_within(task) && self.is_before_rest(i, task.period.0),
            None => false,
        }
    }

    // Whether the jobs are a legal arrival.
    fn is_legal(&self, table: &[Task]) -> bool
        ensures { result ≡ legal_arrival table.now (jobs_in self.now.jobs) }
    {
        // By place, since a job is four columns' numbers there.
        (0..self.jobs.tasks.len()).all(|i| self.is_legal_at(table, i))
    }

    // The deadline of each job.
    pub(crate) fn deadlines(&self, table: &[Task], due: &mut [u32])
        requires { (length due.old ≡ length self.now.jobs.tasks.now) × ((k : ℕ) → k < length self.now.jobs.tasks.now → Timely table.now (get_or (jobs_in self.now.jobs) k no_job)) }
        ensures { due.new ≡ map (deadline table.now) (jobs_in self.now.jobs) }
    {
        // The place goes along, since a job is four columns' numbers there.
        for (i, due) in due.iter_mut().enumerate() {
            let job = self.at(i);
            *due = job.deadline(table[job.task as usize].deadline.0);
        }
    }
}
